// What is told of a card, and of the rows that its calls fill: numbers, each behind a space.
#![tactic(auto)]

use card::card::Card;
use cases::writing::put;
use clock::clock::{Clock, Periodic, Strobe};
use clock::time::Time;
use parts::event::Event;
use parts::interrupts::Interrupts;
use parts::queue::Queue;
use parts::settings::Settings;
use std::io;
use wire::packets::{ClockSource, Generator, Modulation, offset_size};

// The numbers of a row, of any width.
pub fn put_all<N: Into<u64> + Copy>(rt: &impl Print, row: &[N]) -> io::Result<()> {
    for &n in row {
        put(rt, n)?;
    }
    Ok(())
}

pub fn put_time(rt: &impl Print, t: Time) -> io::Result<()> {
    print!(rt; " {} {} {}", t.year, t.day, t.tick.ticks)
}

fn put_strobe(rt: &impl Print, s: Strobe) -> io::Result<()> {
    match s {
        Strobe::Off => print!(rt; " 0"),
        Strobe::Daily(t) => print!(rt; " 1 {}", t.ms),
        Strobe::EachSecond(t) => print!(rt; " 2 {}", t.ms),
    }
}

fn put_periodic(rt: &impl Print, p: Periodic) -> io::Result<()> {
    match p {
        Periodic::Off => print!(rt; " 0"),
        Periodic::Every { n1, n2, count } => print!(rt; " {n1} {n2} {count}"),
    }
}

fn put_interrupts(rt: &impl Print, i: Interrupts) -> io::Result<()> {
    print!(rt; " {} {} {} {}", i.mask, i.pending, i.level, i.vector)
}

// Formats A, B, C, N, X as 0 to 4, in the order in which they are declared; 1 is D, an external clock, H and an offset below 0.
fn put_settings(rt: &impl Print, s: Settings) -> io::Result<()> {
    put(rt, s.mode)?;
    put(rt, s.format as u8)?;
    put(rt, matches!(s.modulation, Modulation::D))?;
    put(rt, matches!(s.clock, ClockSource::External))?;
    put(rt, matches!(s.generator, Generator::H))?;
    put(rt, s.offset < 0)?;
    put(rt, offset_size(s.offset))
}

// The fill, and each of the 64 bytes that is not 0, with its place.
fn put_queue(rt: &impl Print, q: &Queue) -> io::Result<()> {
    print!(rt; " {}", q.fill)?;
    for (i, &b) in q.bytes.iter().enumerate() {
        if b != 0 {
            print!(rt; " {i}:{b}")?;
        }
    }
    Ok(())
}

fn put_clock(rt: &impl Print, clock: Clock) -> io::Result<()> {
    put_time(rt, clock.time)?;
    put_strobe(rt, clock.strobe)?;
    put_periodic(rt, clock.periodic)
}

fn put_event(rt: &impl Print, e: Event) -> io::Result<()> {
    put(rt, e.control)?;
    put(rt, e.closed)?;
    put(rt, e.missed)?;
    put_all(rt, &e.latch)
}

pub fn put_card(rt: &impl Print, card: Card) -> io::Result<()> {
    put_clock(rt, card.clock)?;
    put_interrupts(rt, card.interrupts)?;
    put_event(rt, card.event)?;
    put_all(rt, &card.time_latch)?;
    put_settings(rt, card.settings)?;
    put(rt, card.jam)?;
    put(rt, card.done)?;
    put_queue(rt, &card.queue)
}
