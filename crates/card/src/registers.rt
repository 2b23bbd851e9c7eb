// Registers, input edges and the interrupt line.
ghost use Rattle.std.specs.Prelude.{◌≡◌, true};
ghost use Rattle.clock.specs.Time.{time_lawful};
ghost use Rattle.wire.specs.Numbers.{answered};
ghost use Rattle.card.specs.Registers.{words_at, read_refusal, shown, read_register, write_refusal, write_register, edge, line};

use crate::card::Card;
use crate::lawful::is_lawful;
use crate::packets::acknowledge;
use clock::time::Time;
use parts::event::{is_matching, open_latch, take_edge, write_control};
use parts::interrupts::{is_up, raise_event, write_interrupts};
use wire::numbers::{Answer, Refusal};
use wire::words::words_of;

// The last register's number.
pub const LAST_REGISTER: u8 = 18;

// What an interrupt line that is up requests: an interrupt of this level, with this vector.
#[derive(Clone, Copy, Debug, PartialEq, Eq)]
pub struct Request {
    pub level: u8,
    pub vector: u8,
}

// The words of a lawful time.
#[tactic(auto, using(crate::proofs::registers::Laws::words_now_lem))]
fn words_at(time: Time) -> [u16; 5]
    requires { time_lawful time ≡ true }
    ensures { result ≡ words_at time }
{
    words_of(time.day, time.tick)
}

// Whether a register may be read.
#[tactic(auto, using(wire::proofs::numbers::Names::names), unfolding(crate::specs::Registers::read_refusal))]
fn may_read(known: bool, reg: u8) -> Result<(), Refusal>
    ensures { result ≡ answered (read_refusal known reg) tt }
{
    if !known {
        return Err(Refusal::Unlawful);
    }
    match reg {
        13 => Err(Refusal::WrongDirection),
        0..=LAST_REGISTER => Ok(()),
        _ => Err(Refusal::NoRegister),
    }
}

// What a register reads as.
#[tactic(auto, unfolding(crate::specs::Registers::shown))]
fn show(card: Card, reg: u8) -> u16
    ensures { result ≡ shown card reg }
{
    match reg {
        0 => 0,
        1..=5 => card.time_latch[(reg - 1) as usize],
        6..=10 => card.event.latch[(reg - 6) as usize],
        11 => card.event.control.into(),
        12 => card.done.into(),
        14 => card.interrupts.mask.into(),
        15 => card.interrupts.pending.into(),
        16 => card.interrupts.level.into(),
        17 => card.interrupts.vector.into(),
        _ => card.event.missed,
    }
}

// Reads a register. TIMEREQ latches the time; no other reading changes anything.
#[tactic(auto, using(crate::proofs::registers::Laws::read_stops, crate::proofs::registers::Laws::read_passed, crate::proofs::registers::Laws::time_lawful_lem), unfolding(crate::specs::Registers::read_register, crate::specs::Registers::read_refusal))]
pub fn read_register(card: Card, reg: u8) -> Answer<Card, u16>
    ensures { result ≡ read_register card reg }
{
    if let Err(refusal) = may_read(is_lawful(card), reg) {
        return Answer::refused(card, refusal);
    }
    let mut c = card;
    if reg == 0 {
        c.time_latch = words_at(card.clock.time);
    }
    Answer {
        after: c,
        outcome: Ok(show(card, reg)),
    }
}

// Whether a register may be written, with so many bytes in the queue.
#[tactic(auto, using(wire::proofs::numbers::Names::names), unfolding(crate::specs::Registers::write_refusal))]
fn may_write(known: bool, reg: u8, fill: usize) -> Result<(), Refusal>
    ensures { result ≡ answered (write_refusal known reg fill) tt }
{
    if !known {
        return Err(Refusal::Unlawful);
    }
    match reg {
        1..=10 => Err(Refusal::WrongDirection),
        13 if fill == 64 => Err(Refusal::QueueFull),
        0..=LAST_REGISTER => Ok(()),
        _ => Err(Refusal::NoRegister),
    }
}

// Writes a register. A packet refused through ACK empties the queue and clears the done bit; any other refusal changes nothing.
pub fn write_register(card: Card, reg: u8, value: u16) -> Answer<Card, ()>
    ensures { result ≡ write_register card reg value }
{
    let fill = card.queue.fill;
    if let Err(refusal) = may_write(is_lawful(card), reg, fill) {
        return Answer::refused(card, refusal);
    }
    let mut c = card;
    match reg {
        0 => c.time_latch = words_at(card.clock.time),
        11 => c.event = write_control(card.event, value),
        12 => return acknowledge(card, value),
        13 => {
            c.queue.bytes[fill] = (value % 256) as u8;
            c.queue.fill = fill + 1;
        }
        18 => c.event = open_latch(card.event),
        _ => c.interrupts = write_interrupts(card.interrupts, reg, value),
    }
    Answer {
        after: c,
        outcome: Ok(()),
    }
}

// An input edge, rising or falling. A matching one is captured or missed, and raises pending bit 0 either way; any other changes nothing.
#[tactic(auto, using(wire::proofs::numbers::Names::names, crate::proofs::registers::Laws::time_lawful_lem, crate::proofs::registers::Laws::words_now_lem), unfolding(crate::specs::Registers::edge))]
pub fn input_edge(card: Card, falling: bool) -> Answer<Card, ()>
    ensures { result ≡ edge card falling }
{
    let mut c = card;
    let mut outcome = Ok(());
    if !is_lawful(card) {
        outcome = Err(Refusal::Unlawful);
    } else if is_matching(card.event.control, falling) {
        c.event = take_edge(card.event, card.clock.time.day, card.clock.time.tick);
        c.interrupts = raise_event(card.interrupts);
    }
    Answer { after: c, outcome }
}

// What the interrupt line requests, nothing where it is down: it is up exactly if LEVEL is not 0 and some pending bit is also set in MASK.
#[tactic(auto, using(wire::proofs::numbers::Names::names), unfolding(crate::specs::Registers::line, crate::specs::Registers::line_refusal))]
pub fn interrupt_line(card: Card) -> Result<Option<Request>, Refusal>
    ensures { result ≡ line card }
{
    if !is_lawful(card) {
        return Err(Refusal::Unlawful);
    }
    if !is_up(card.interrupts) {
        return Ok(None);
    }
    Ok(Some(Request {
        level: card.interrupts.level,
        vector: card.interrupts.vector,
    }))
}
