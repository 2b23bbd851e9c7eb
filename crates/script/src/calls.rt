// The calls: what each gives back is told, and the card that it leaves goes on.
use crate::cards::{changed, count_at, five_at, format_of, modulation_of, offset_of};
use crate::frames::{called_frame, put_read};
use crate::packets::told_reading_alone;
use card::blocks::write_block;
use card::card::Card;
use card::registers::{input_edge, interrupt_line, read_register, write_register};
use card::reset::reset;
use card::saved::{load, save};
use card::setting::{set_periodic, set_strobe, set_time, switch_jam};
use card::waiting::{Waited, wait};
use cases::writing::put;
use cases::{at, flag_at, number_at, ticks_at, wide_at};
use clock::setting::{Dividers, StrobeAt};
use dividers::nearest::nearest_pair;
use dividers::pairs::Nearest;
use lent::in_place;
use std::io;
use telling::{put_all, put_card};
use wire::numbers::{Answer, Refusal, number_of};
use wire::packets::{ClockSource, Generator, Packet, write_packet};
use wire::time::Ticks;
use wire::words::{read_words, write_words};

// What stands in a place before a wait: no record is 7, which would be one of no ticks.
const UNTOUCHED: u64 = 7;

fn told(rt: &impl Print, a: Answer<Card, ()>) -> io::Result<Card> {
    put(rt, number_of(&a.outcome))?;
    Ok(a.after)
}

fn told_time(rt: &impl Print, card: Card, text: &[u8]) -> io::Result<Card> {
    let a = set_time(
        card,
        at(text, 1),
        at(text, 2),
        at(text, 3),
        at(text, 4),
        at(text, 5),
    );
    told(rt, a)
}

fn daily(text: &[u8]) -> StrobeAt {
    StrobeAt::Daily {
        hour: at(text, 1),
        minute: at(text, 2),
        second: at(text, 3),
        ms: at(text, 4),
    }
}

fn told_reading(rt: &impl Print, card: Card, reg: u8) -> io::Result<Card> {
    let a = read_register(card, reg);
    put(rt, number_of(&a.outcome))?;
    put(rt, a.outcome.unwrap_or(0))?;
    Ok(a.after)
}

// Bytes, the first one and each next a step more, from 0 on again behind 255.
fn rising(row: &mut [u8], first: u8, step: u8) {
    let mut b = first;
    for place in row {
        *place = b;
        b = b.wrapping_add(step);
    }
}

// So many rising bytes, 80 at most, as one block.
fn told_block(rt: &impl Print, card: Card, text: &[u8]) -> io::Result<Card> {
    let mut row = [0u8; 80];
    rising(&mut row, at(text, 2), at(text, 3));
    let a = write_block(card, &row[..count_at(text, 80)]);
    put(rt, number_of(&a.outcome))?;
    put(rt, a.taken as u64)?;
    Ok(a.card)
}

// So many edges of a kind, at most 70,000 on a line, so that it ends soon; the number of the last is told.
fn told_edges(rt: &impl Print, mut card: Card, text: &[u8]) -> io::Result<Card> {
    let falling = flag_at(text, 2);
    let mut outcome = Ok(());
    for _ in 0..at::<u32>(text, 1) % 70_001 {
        let a = input_edge(card, falling);
        outcome = a.outcome;
        card = a.after;
    }
    put(rt, number_of(&outcome))?;
    Ok(card)
}

// The number; 1, the level and the vector, or zeros where the line is down and beside a refusal.
fn told_line(rt: &impl Print, card: Card) -> io::Result<Card> {
    let line = interrupt_line(card);
    put(rt, number_of(&line))?;
    match line {
        Ok(Some(request)) => print!(rt; " 1 {} {}", request.level, request.vector)?,
        _ => print!(rt; " 0 0 0")?,
    }
    Ok(card)
}

// A wait by value or in place, with ten places, of which so many are lent.
fn told_wait<W: Fn(Card, Ticks, &mut [u64]) -> Answer<Card, Waited>>(
    rt: &impl Print,
    card: Card,
    text: &[u8],
    wait: W,
) -> io::Result<Card>
    requires { W.IsAlwaysCallable wait }
{
    let mut row = [UNTOUCHED; 10];
    let w = wait(card, ticks_at(text, 2), &mut row[..count_at(text, 10)]);
    put(rt, number_of(&w.outcome))?;
    match w.outcome {
        Ok(waited) => print!(rt; " {} {}", waited.passed.ticks, waited.written)?,
        Err(_) => print!(rt; " 0 0")?,
    }
    put_all(rt, &row)?;
    Ok(w.after)
}

// Twelve places, of which so many are lent.
fn told_save(rt: &impl Print, card: Card, text: &[u8]) -> io::Result<Card> {
    let mut row = [7u8; 12];
    put(rt, number_of(&save(card, &mut row[..count_at(text, 12)])))?;
    put_all(rt, &row)?;
    Ok(card)
}

fn told_load(rt: &impl Print, card: Card, text: &[u8]) -> io::Result<Card> {
    let row = [
        at(text, 2),
        at(text, 3),
        at(text, 4),
        at(text, 5),
        at(text, 6),
        0,
    ];
    told(rt, load(card, &row[..count_at(text, 6)]))
}

fn told_packet(rt: &impl Print, p: Packet, text: &[u8]) -> io::Result<()> {
    let mut row = [7u8; 12];
    let written = write_packet(p, &mut row[..count_at(text, 12)]);
    put(rt, number_of(&written))?;
    put(rt, written.unwrap_or(0) as u64)?;
    put_all(rt, &row)
}

fn told_words(rt: &impl Print, day: u16, tick: Ticks) -> io::Result<()> {
    let words = write_words(day, tick);
    put(rt, number_of(&words))?;
    put_all(rt, &words.unwrap_or([0; 5]))
}

fn told_nearest(rt: &impl Print, found: Result<Nearest, Refusal>) -> io::Result<()> {
    put(rt, number_of(&found))?;
    match found {
        Ok(n) => print!(rt; " {} {} {} {}", n.pair.n1, n.pair.n2, n.period, n.distance),
        Err(_) => print!(rt; " 0 0 0 0"),
    }
}

fn packet_of(call: u8, text: &[u8]) -> Packet {
    match call {
        b'A' => Packet::A(at(text, 2)),
        b'G' => Packet::G(offset_of(at(text, 2))),
        b'H' => Packet::H(format_of(at(text, 2)), modulation_of(at(text, 3))),
        b'J' => Packet::I(ClockSource::External),
        _ => Packet::K(Generator::H),
    }
}

// Words, packets and wanted periods alone.
fn called_alone(rt: &impl Print, call: u8, text: &[u8]) -> io::Result<()> {
    match call {
        b'f' => told_words(rt, at(text, 1), ticks_at(text, 2)),
        b'g' => put_read(rt, read_words(five_at(text))),
        b'c' => told_nearest(rt, nearest_pair(number_at(text, 1))),
        b'u' => told_nearest(rt, nearest_pair(wide_at(text, 1, 2))),
        b'P' => told_reading_alone(rt, text),
        _ => told_packet(rt, packet_of(call, text), text),
    }
}

fn called_clock(rt: &impl Print, call: u8, card: Card, text: &[u8]) -> io::Result<Card> {
    match call {
        b't' => told_time(rt, card, text),
        b'd' => told(
            rt,
            set_periodic(card, Dividers::By(at(text, 1), at(text, 2))),
        ),
        b'q' => told(rt, set_periodic(card, Dividers::Off)),
        b's' => told(rt, set_strobe(card, StrobeAt::EachSecond(at(text, 1)))),
        b'a' => told(rt, set_strobe(card, daily(text))),
        b'z' => told(rt, set_strobe(card, StrobeAt::Off)),
        b'n' => told_wait(rt, card, text, wait),
        b'i' => told_wait(rt, card, text, in_place),
        _ => Ok(changed(call, card, text)),
    }
}

fn called_card(rt: &impl Print, call: u8, card: Card, text: &[u8]) -> io::Result<Card> {
    match call {
        b'r' => told_reading(rt, card, at(text, 1)),
        b'w' => told(rt, write_register(card, at(text, 1), at(text, 2))),
        b'b' => told_block(rt, card, text),
        b'e' => told(rt, input_edge(card, flag_at(text, 1))),
        b'k' => told_edges(rt, card, text),
        b'l' => told_line(rt, card),
        b'j' => told(rt, switch_jam(card, flag_at(text, 1))),
        b'x' => told(rt, reset(card)),
        b'p' => told_save(rt, card, text),
        b'o' => told_load(rt, card, text),
        _ => called_clock(rt, call, card, text),
    }
}

pub(crate) fn called(rt: &impl Print, call: u8, card: Card, text: &[u8]) -> io::Result<Card> {
    match call {
        b'A' | b'G' | b'H' | b'J' | b'K' | b'f' | b'g' | b'c' | b'u' | b'P' => {
            called_alone(rt, call, text)?
        }
        b'W' | b'm' | b'R' | b'Y' | b'y' => called_frame(rt, call, card, text)?,
        b'v' => put_card(rt, card)?,
        _ => return called_card(rt, call, card, text),
    }
    Ok(card)
}
