// A script: a call on each line of standard input, made on the card that the line before it left. Out comes what the line says of itself, the number, and whatever else
// the call gives back; asked to, also all that stands in the card. `tests/script.py` says how a line is written.
//
// The programs over it differ in their input alone. No contract can say what is read or written, so here it is proved only that nothing goes wrong and that a
// script ends; what the calls do is proved of the calls.
#![tactic(auto)]

mod calls;
mod cards;
mod elements;
mod frames;
mod packets;

use crate::calls::called;
use card::card::Card;
use card::reset::fresh_card;
use std::io;
use std::io::Read;

// A line's words are written, and behind them what its call gives back. A line without words only changes the card; one without a call is only said.
fn line(rt: &impl Print, card: Card, words: &[u8], text: &[u8]) -> io::Result<Card> {
    rt.write_all(words)?;
    let Some(&call) = text.first() else {
        rt.write_all(b"\n")?;
        return Ok(card);
    };
    let card = called(rt, call, card, text)?;
    if !words.is_empty() {
        rt.write_all(b"\n")?;
    }
    Ok(card)
}

// A call stands between the last bar and the line's end. A line that has no bar belongs to the words of the next one, which a split at the lines' ends would lose.
fn run_lines(rt: &impl Print, lines: &[u8]) -> io::Result<()> {
    let mut card = fresh_card();
    let mut from = 0;
    let mut bar = 0;
    for (i, &b) in lines.iter().enumerate() {
        if b == b'|' {
            bar = i;
        }
        if b == b'\n' && (from..i).contains(&bar) {
            card = line(rt, card, &lines[from..bar], &lines[bar + 1..i])?;
            from = i + 1;
        }
    }
    Ok(())
}

// All lines of standard input, which one reading takes: 65536 bytes at most. A read that fails gives nothing; a write that fails is the end.
pub fn run(rt: &(impl Input + Print)) -> io::Result<()> {
    let mut lines = [0u8; 65536];
    let n = rt.reader().read(&mut lines).unwrap_or(0);
    run_lines(rt, &lines[..n])
}
