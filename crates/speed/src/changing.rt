// Loops of calls that change a card, each the one that the last call gave, with values that the sum of the answers says.
use crate::packets::{long_packet, short_packet};
use crate::sums::{mixed, with_card};
use card::blocks::write_block;
use card::card::Card;
use card::registers::{input_edge, write_register};
use card::saved::{load, save};
use card::setting::{set_periodic, set_strobe, set_time};
use clock::setting::{Dividers, StrobeAt};
use wire::numbers::{Answer, number_of};
use wire::time::Ticks;

// The same card at another tick of its day: every sum is one.
pub(crate) fn at_tick(mut card: Card, tick: u64) -> Card {
    card.clock.time.tick = Ticks { ticks: tick };
    card
}

// Bytes to FIFO, one by one.
fn fed(mut card: Card, bytes: &[u8]) -> Card {
    for &b in bytes {
        card = write_register(card, 13, u16::from(b)).after;
    }
    card
}

// MASK.
pub(crate) fn mask_set(card: Card, sum: u64) -> Answer<Card, ()> {
    write_register(card, 14, (sum % 65_536) as u16)
}

// An edge at another tick.
pub(crate) fn edge_taken(card: Card, sum: u64) -> Answer<Card, ()> {
    input_edge(at_tick(card, sum), false)
}

// The settings saved, and loaded again.
pub(crate) fn reloaded(card: Card) -> Answer<Card, ()> {
    let mut form = [0u8; 5];
    let _ = save(card, &mut form);
    load(card, &form)
}

// A time in the last days of a year.
pub(crate) fn time_set(card: Card, sum: u64) -> Answer<Card, ()> {
    let low = (sum % 16) as u16;
    set_time(card, 2_000 + low, 350 + low, low, low + 30, low + 40)
}

pub(crate) fn strobe_set(card: Card, sum: u64) -> Answer<Card, ()> {
    set_strobe(card, StrobeAt::EachSecond((sum % 1_024) as u16))
}

pub(crate) fn dividers_set(card: Card, sum: u64) -> Answer<Card, ()> {
    let low = (sum % 65_536) as u32;
    set_periodic(card, Dividers::By(low, low + 2))
}

// Packet A, byte by byte, and ACK.
pub(crate) fn short_packet_sent(card: Card, sum: u64) -> Answer<Card, ()> {
    write_register(fed(card, &short_packet(sum)), 12, 0x81)
}

// Packet G, byte by byte, and ACK.
pub(crate) fn long_packet_sent(card: Card, sum: u64) -> Answer<Card, ()> {
    write_register(fed(card, &long_packet(sum)), 12, 0x81)
}

// Packet G as a block, and ACK.
pub(crate) fn block_sent(card: Card, sum: u64) -> Answer<Card, ()> {
    write_register(write_block(card, &long_packet(sum)).card, 12, 0x81)
}

// A call so many times.
pub(crate) fn changes<C: Fn(Card, u64) -> Answer<Card, ()>>(
    mut card: Card,
    times: usize,
    call: C,
) -> u64
    requires { C.IsAlwaysCallable call }
{
    let mut sum: u64 = 7;
    for _ in 0..times {
        let a = call(card, sum);
        sum = mixed(sum, number_of(&a.outcome));
        card = a.after;
    }
    with_card(sum, card)
}
