// Tries the SYNC board: a call on each line of standard input, made on the board that the line before it left, and any record at all may be handed in between. Out comes
// the line, behind it the number and what else the call gives back, and all that stands in the board afterwards. `tests/pulses.py` says how a line is written.
#![tactic(auto)]

mod boards;
mod calls;

use crate::calls::called;
use std::io;
use std::io::Read;
use sync::board::{Board, fresh_board};

// An empty line is only written.
fn line(rt: &impl Print, board: Board, text: &[u8]) -> io::Result<Board> {
    rt.write_all(text)?;
    let board = match text {
        [] => board,
        [call, ..] => called(rt, *call, board, text)?,
    };
    rt.write_all(b"\n")?;
    Ok(board)
}

// What stands behind the last line's end is no line.
fn run_lines(rt: &impl Print, lines: &[u8]) -> io::Result<()> {
    let mut board = fresh_board();
    for text in lines.split_inclusive(|&b| b == b'\n') {
        if let [text @ .., b'\n'] = text {
            board = line(rt, board, text)?;
        }
    }
    Ok(())
}

// One reading takes all lines: 65536 bytes at most. A read that fails gives nothing; a write that fails is the end.
fn main(rt: HostRuntime) -> io::Result<()> {
    let mut lines = [0u8; 65536];
    let n = rt.reader().read(&mut lines).unwrap_or(0);
    run_lines(&rt, &lines[..n])
}
