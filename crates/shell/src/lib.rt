// The bench's reading and writing: the listing of standard input to standard output, `PKT ANS` and a line for each piece.
//
// What is proved of the listing is proved of `listing::feeding`, for every input and however it comes. No contract can say what is read or written, so
// here it is proved only that nothing goes wrong and that the program ends.
#![tactic(auto)]

use listing::feeding::{Bench, feed, finish, start};
use std::io;
use std::io::Read;
use std::ops::ControlFlow;

// Feeds a part of the input, and writes the lines out whenever the row has no room for one more, and at the part's end. Breaks if no more is taken.
fn feed_part(
    rt: &impl Print,
    bench: &mut Bench,
    part: &[u8],
    row: &mut [u8],
) -> io::Result<ControlFlow<()>> {
    let mut left = part;
    while !left.is_empty() {
        let fed = feed(*bench, left, row);
        *bench = fed.bench;
        if fed.taken == 0 {
            return Ok(ControlFlow::Break(()));
        }
        rt.write_all(&row[..fed.written])?;
        left = &left[fed.taken..];
    }
    Ok(ControlFlow::Continue(()))
}

// Reads once, and feeds what came. A read that fails or gives nothing is the end.
fn feed_some(
    rt: &impl Print,
    reader: &mut impl Read,
    bench: &mut Bench,
    input: &mut [u8],
    row: &mut [u8],
) -> io::Result<ControlFlow<()>> {
    match reader.read(input) {
        Ok(0) | Err(_) => Ok(ControlFlow::Break(())),
        Ok(n) => feed_part(rt, bench, &input[..n], row),
    }
}

// Feeds all of the input, and at its end the last rest. Nothing says that an input ends, so the loop counts its turns, up to a number that no run
// uses up.
fn run(
    rt: &impl Print,
    reader: &mut impl Read,
    input: &mut [u8],
    row: &mut [u8],
) -> io::Result<()> {
    let mut bench = start();
    for _ in 0..u64::MAX {
        if feed_some(rt, reader, &mut bench, input, row)?.is_break() {
            break;
        }
    }
    let n = finish(bench, row);
    rt.write_all(&row[..n])
}

// The bench program: the header, and then the lines. A write that fails is the end.
pub fn bench(rt: &(impl Input + Print)) -> io::Result<()> {
    rt.write_all(b"PKT ANS\n")?;
    let mut input = [0u8; 65536];
    let mut row = [0u8; 65536];
    run(rt, &mut rt.reader(), &mut input, &mut row)
}
