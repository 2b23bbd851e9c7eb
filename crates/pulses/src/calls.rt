// The calls: what each gives back is written, and then the board that it leaves, which goes on.
use crate::boards::{board_at, shown};
use cases::writing::put;
use cases::{at, wide_at};
use std::io;
use sync::board::{Board, fresh_board};
use sync::interrupts::take_interrupt;
use sync::lawful::is_lawful;
use sync::register::read_register;
use sync::stepping::{run, step};
use sync::switches::set_switches;
use wire::numbers::{Answer, Refusal, number_of};

fn put_number<T>(rt: &impl Print, outcome: &Result<T, Refusal>) -> io::Result<()> {
    rt.write_all(b" =")?;
    put(rt, number_of(outcome))
}

fn told(rt: &impl Print, a: Answer<Board, ()>) -> io::Result<Board> {
    put_number(rt, &a.outcome)?;
    shown(rt, a.after)
}

// The value is 0 beside a refusal.
fn told_reading(rt: &impl Print, board: Board, r: Result<u16, Refusal>) -> io::Result<Board> {
    put_number(rt, &r)?;
    put(rt, r.unwrap_or(0))?;
    shown(rt, board)
}

// 1 and the vector, or 0 and 0: vector 0 is one too. Beside a refusal there is none.
fn told_taken(rt: &impl Print, a: Answer<Board, Option<u8>>) -> io::Result<Board> {
    put_number(rt, &a.outcome)?;
    let vector = a.outcome.unwrap_or(None);
    put(rt, vector.is_some())?;
    put(rt, vector.unwrap_or(0))?;
    shown(rt, a.after)
}

fn told_lawful(rt: &impl Print, board: Board, lawful: bool) -> io::Result<Board> {
    rt.write_all(b" =")?;
    put(rt, lawful)?;
    shown(rt, board)
}

// Another board: by its switches, a fresh one, or the record that the line has. A line that is no call leaves the board, unwritten.
fn called_anew(rt: &impl Print, call: u8, board: Board, text: &[u8]) -> io::Result<Board> {
    match call {
        b's' => told(rt, set_switches(board, at(text, 1), at(text, 2))),
        b'N' => shown(rt, fresh_board()),
        b'b' => shown(rt, board_at(text)),
        _ => Ok(board),
    }
}

pub(crate) fn called(rt: &impl Print, call: u8, board: Board, text: &[u8]) -> io::Result<Board> {
    match call {
        b'p' => told(rt, step(board, true)),
        b'q' => told(rt, step(board, false)),
        b'r' => told(rt, run(board, wide_at(text, 1, 2))),
        b'v' => told_reading(rt, board, read_register(board)),
        b'i' => told_taken(rt, take_interrupt(board)),
        b'l' => told_lawful(rt, board, is_lawful(board)),
        _ => called_anew(rt, call, board, text),
    }
}
