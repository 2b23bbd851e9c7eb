// The calls on frames, and on a stream of their elements: what each gives back is told. None of them changes the card.
use crate::cards::count_at;
use crate::elements::{elements_at, put_elements};
use card::card::Card;
use cases::writing::put;
use cases::{at, flag_at, number_at};
use irig::reading::read_frame;
use irig::stream::{RowTaken, Stream, is_lawful, take_row};
use irig::writing::write_frame;
use std::io;
use wire::numbers::{Answer, Refusal, number_of};
use wire::words::Moment;

// The number, and what was read; zeros beside a refusal.
pub(crate) fn put_read(rt: &impl Print, read: Result<Moment, Refusal>) -> io::Result<()> {
    put(rt, number_of(&read))?;
    match read {
        Ok(moment) => print!(rt; " {} {}", moment.day, moment.tick.ticks),
        Err(_) => print!(rt; " 0 0"),
    }
}

// 104 places, of which so many are lent.
fn told_writing(rt: &impl Print, card: Card, text: &[u8]) -> io::Result<()> {
    let mut row = [7u8; 104];
    put(
        rt,
        number_of(&write_frame(card, &mut row[..count_at(text, 104)])),
    )?;
    put_elements(rt, &mut row)
}

// The card's frame with another element at a place, read.
fn told_changed(rt: &impl Print, card: Card, text: &[u8]) -> io::Result<()> {
    let mut row = [7u8; 104];
    let _ = write_frame(card, &mut row);
    row[count_at(text, 103)] = at(text, 2);
    put_read(rt, read_frame(&row))
}

fn told_reading(rt: &impl Print, text: &[u8]) -> io::Result<()> {
    let mut row = [0u8; 256];
    let n = elements_at(text, 1, &mut row);
    put_read(rt, read_frame(&row[..n]))
}

// A stream's record of any kind: zeros stand behind the elements that the line has.
fn stream_at(text: &[u8]) -> Stream {
    let mut elements = [0u8; 100];
    elements_at(text, 3, &mut elements);
    Stream {
        elements,
        held: number_at(text, 1) as usize,
        marked: flag_at(text, 2),
    }
}

fn put_stream(rt: &impl Print, mut stream: Stream) -> io::Result<()> {
    put(rt, stream.held as u64)?;
    put(rt, stream.marked)?;
    put_elements(rt, &mut stream.elements)
}

// 0, or 1 and what the frame is read as.
fn put_finished(rt: &impl Print, finished: Option<Result<Moment, Refusal>>) -> io::Result<()> {
    put(rt, finished.is_some())?;
    match finished {
        Some(read) => put_read(rt, read),
        None => Ok(()),
    }
}

// Beside a refusal nothing was taken and nothing finished.
fn told_taken(rt: &impl Print, a: Answer<Stream, RowTaken>) -> io::Result<()> {
    put(rt, number_of(&a.outcome))?;
    match a.outcome {
        Ok(t) => {
            put(rt, t.taken as u64)?;
            put_finished(rt, t.finished)?;
        }
        Err(_) => print!(rt; " 0 0")?,
    }
    put_stream(rt, a.after)
}

fn told_row(rt: &impl Print, text: &[u8]) -> io::Result<()> {
    let mut row = [0u8; 256];
    let n = elements_at(text, 4, &mut row);
    told_taken(rt, take_row(stream_at(text), &row[..n]))
}

pub(crate) fn called_frame(rt: &impl Print, call: u8, card: Card, text: &[u8]) -> io::Result<()> {
    match call {
        b'W' => told_writing(rt, card, text),
        b'm' => told_changed(rt, card, text),
        b'R' => told_reading(rt, text),
        b'Y' => told_row(rt, text),
        _ => put(rt, is_lawful(stream_at(text))),
    }
}
