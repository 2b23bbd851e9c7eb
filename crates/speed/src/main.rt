// Runs loops of calls, so that they can be timed from outside: `speed TIMES ROOM LOOP ..` makes the calls of each named loop so many times, those that wait or fill on a row of so
// many places, and writes the loop's name and its checksum. Every call depends on what the call before it gave. `tests/speed.c` says what the checksums must be, and
// `tests/speed.py` times the loops.
//
// A loop that waits has numbers behind its name: two dividers, 0 for off; the strobe, 0 for off, 1 for daily, 2 for each second; its millisecond; and
// the places that it takes, 0 for the whole row.
//
// No contract can say what is written, so here it is proved only that nothing goes wrong and that the loops end; what the calls do is proved of the calls.
#![tactic(auto)]

mod asking;
mod cards;
mod changing;
mod packets;
mod reading;
mod sums;
mod waits;

ghost use Rattle.std.specs.Prelude.{◌≤◌, length};

use crate::asking::{lawfuls, lines};
use crate::cards::{busy_card, busy_pair, card_with, fresh_pair};
use crate::changing::{
    block_sent, changes, dividers_set, edge_taken, long_packet_sent, mask_set, reloaded,
    short_packet_sent, strobe_set, time_set,
};
use crate::packets::{packet_read, packet_written, wire_sum, words_read, words_written};
use crate::reading::reads;
use crate::waits::{fills, waits};
use card::card::Card;
use card::reset::{fresh_card, reset};
use card::waiting::wait;
use cases::writing::put;
use cases::{at, number_at};
use clock::clock::{Periodic, Strobe};
use lent::in_place;
use std::env::FillError;
use std::io;
use std::rt::Env;
use wire::time::Milliseconds;

// The longest row.
const LONGEST: u64 = 1_000_000;

// Loops over words and packets alone. Here and below: the checksum of the loop that has a name, or none if no loop has it.
fn run_wire(name: &[u8], times: usize) -> Option<u64> {
    match name {
        b"words" => Some(wire_sum(times, words_written)),
        b"read-words" => Some(wire_sum(times, words_read)),
        b"read-packet" => Some(wire_sum(times, packet_read)),
        b"write-packet" => Some(wire_sum(times, packet_written)),
        _ => None,
    }
}

// Loops of packets through a card's queue.
fn run_packets(name: &[u8], times: usize) -> Option<u64> {
    let first = busy_card(1, 64, false);
    match name {
        b"packet-a" => Some(changes(first, times, short_packet_sent)),
        b"packet-g" => Some(changes(first, times, long_packet_sent)),
        b"block-g" => Some(changes(first, times, block_sent)),
        _ => run_wire(name, times),
    }
}

// Loops of other calls that change a card: a busy one, but where the name says a fresh one, or an edge passed, which one with capture off does.
fn run_changes(name: &[u8], times: usize) -> Option<u64> {
    let busy = busy_card(1, 64, true);
    match name {
        b"write-mask-busy" => Some(changes(busy, times, mask_set)),
        b"write-mask-fresh" => Some(changes(fresh_card(), times, mask_set)),
        b"edge-captured" => Some(changes(busy, times, edge_taken)),
        b"edge-passed" => Some(changes(busy_card(0, 64, true), times, edge_taken)),
        b"set-time" => Some(changes(busy, times, time_set)),
        b"set-strobe" => Some(changes(busy, times, strobe_set)),
        b"set-dividers" => Some(changes(busy, times, dividers_set)),
        b"reset" => Some(changes(busy, times, |card, _| reset(card))),
        b"save-load" => Some(changes(busy, times, |card, _| reloaded(card))),
        _ => run_packets(name, times),
    }
}

// Loops that ask or read a card: INTSTAT, or, of the time, TIMEREQ and its five words in turn.
fn run_calls(name: &[u8], times: usize) -> Option<u64> {
    match name {
        b"lawful-fresh" => Some(lawfuls(fresh_pair(), times)),
        b"lawful-busy" => Some(lawfuls(busy_pair(), times)),
        b"line" => Some(lines(busy_pair(), times)),
        b"read-intstat" => Some(reads(busy_card(1, 64, true), times, |_| 15)),
        b"read-time" => Some(reads(busy_card(1, 64, true), times, |i| (i % 6) as u8)),
        _ => run_changes(name, times),
    }
}

// The strobe that two numbers say.
fn strobe_of(kind: u64, ms: u16) -> Strobe {
    let ms = u32::from(ms);
    match kind {
        0 => Strobe::Off,
        1 => Strobe::Daily(Milliseconds {
            ms: 72_910_000 + ms,
        }),
        _ => Strobe::EachSecond(Milliseconds { ms }),
    }
}

// The periodic output that two numbers say.
fn periodic_of(n1: u16, n2: u16) -> Periodic {
    match n1 {
        0 => Periodic::Off,
        _ => Periodic::Every { n1, n2, count: 0 },
    }
}

// The card that the numbers behind a name say.
fn card_at(name: &[u8]) -> Card {
    let strobe = strobe_of(number_at(name, 3), at(name, 4));
    let periodic = periodic_of(at(name, 1), at(name, 2));
    card_with(0, strobe, periodic)
}

// The places that a loop takes: as many as the number behind its name says, or all there are.
fn places_of(n: u64, all: usize) -> usize
    ensures { result ≤ all }
{
    match n {
        0 => all,
        _ => all.min(n as usize),
    }
}

// Loops that wait.
fn run_waits(name: &[u8], times: usize, row: &mut [u64]) -> u64 {
    let places = places_of(number_at(name, 5), row.len());
    let row = &mut row[..places];
    if name.starts_with(b"wait-in-place ") {
        waits(card_at(name), times, row, in_place)
    } else {
        waits(card_at(name), times, row, wait)
    }
}

// All loops.
fn run(name: &[u8], times: usize, row: &mut [u64]) -> Option<u64>
    requires { length row.old ≤ 1000000 }
{
    match name {
        b"fill" => Some(fills(times, row)),
        _ if name.starts_with(b"wait") => Some(run_waits(name, times, row)),
        _ => run_calls(name, times),
    }
}

// The loop that an argument names, and its line.
fn run_argument(rt: &impl Print, name: &[u8], times: usize, row: &mut [u64]) -> io::Result<()>
    requires { length row.old ≤ 1000000 }
{
    let outcome = run(name, times, row);
    rt.write_all(name)?;
    match outcome {
        Some(sum) => put(rt, sum)?,
        None => rt.write_all(b" unknown")?,
    }
    rt.write_all(b"\n")
}

// The number that an argument is; 0 where there is none, and for one of more than 64 bytes.
fn number_of(rt: &impl Env, i: usize) -> u64 {
    let mut text = [0u8; 64];
    match rt.arg(i, &mut text) {
        Ok(n) => number_at(&text[..n], 0),
        Err(_) => 0,
    }
}

// The places of the row: at least one, and no more than there are.
fn room_of(n: u64) -> usize
    ensures { result ≤ 1000000 }
{
    n.clamp(1, LONGEST) as usize
}

// The loops of all arguments behind the first two. One of more than 64 bytes names no loop.
fn run_arguments(rt: &(impl Env + Print), times: usize, row: &mut [u64]) -> io::Result<()>
    requires { length row.old ≤ 1000000 }
{
    for i in 3..usize::MAX {
        let mut text = [0u8; 64];
        match rt.arg(i, &mut text) {
            Ok(n) => run_argument(rt, &text[..n], times, row)?,
            Err(FillError::TooLong) => run_argument(rt, b"", times, row)?,
            Err(FillError::NotPresent) => break,
        }
    }
    Ok(())
}

// A write that fails is the end, and so is a row that there is no memory for.
fn main(rt: HostRuntime) -> io::Result<()> {
    let times = number_of(&rt, 1) as usize;
    let room = room_of(number_of(&rt, 2));
    let mut row = vec![in rt.alloc(); 0u64; room]?;
    run_arguments(&rt, times, &mut row)
}
