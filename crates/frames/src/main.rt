// Lists the frames in standard input, whose bytes are elements: a line for each frame, in the order in which they end, with the number of its element 0, counted from 0 over the
// whole input, its own number, and, where that is 0, its day and its tick of day. `tests/frames.py` says what stands in the input.
//
// What is proved of the frames is proved of `irig::stream`, for every input and however it comes. No contract can say what is read or written, so here it is proved only that
// nothing goes wrong and that the program ends.
#![tactic(auto)]

mod lines;

ghost use Rattle.std.specs.Prelude.{◌≡◌, ◌+◌, ◌≤◌, IfOk};

use crate::lines::{Lines, no_lines, put_out, write_out};
use irig::stream::{Stream, fresh_stream, take_row};
use std::io;
use std::io::Read;
use std::ops::ControlFlow;

// The stream after a part of the input, and how many elements were taken of the whole input. 64 bits count more elements than any input has; behind so many the count would
// begin again at 0.
#[derive(Clone, Copy)]
struct Kept {
    stream: Stream,
    taken: u64,
}

// Takes a part of the input, frame by frame, and writes its lines out. No call is refused, or takes nothing of a row that has elements; one that did would break off, with nothing
// written.
#[tactic(auto, using(crate::proofs::Laws::given_within))]
fn take_part(
    rt: &impl Print,
    kept: &mut Kept,
    part: &[u8],
    lines: &mut Lines,
) -> io::Result<ControlFlow<()>>
    requires { lines.old.fill + 84 ≤ 65536 }
    ensures { IfOk result (λ _. lines.new.fill + 84 ≤ 65536) }
{
    let mut rest = part;
    while !rest.is_empty() {
        let answer = take_row(kept.stream, rest);
        let t = match answer.outcome {
            Ok(t) if t.taken != 0 => t,
            _ => return Ok(ControlFlow::Break(())),
        };
        rest = &rest[t.taken..];
        *kept = Kept {
            stream: answer.after,
            taken: kept.taken.wrapping_add(t.taken as u64),
        };
        if let Some(frame) = t.finished {
            put_out(rt, kept.taken, frame, lines)?;
        }
    }
    write_out(rt, lines)?;
    Ok(ControlFlow::Continue(()))
}

// Takes all of the input: a read that fails or gives nothing is the end. Nothing says that an input ends, so the loop counts its turns, up to a number that no run uses up.
fn run(
    rt: &impl Print,
    reader: &mut impl Read,
    input: &mut [u8],
    lines: &mut Lines,
) -> io::Result<()>
    requires { lines.old.fill + 84 ≤ 65536 }
{
    let mut kept = Kept {
        stream: fresh_stream(),
        taken: 0,
    };
    for _ in 0..u64::MAX {
        let n = reader.read(input).unwrap_or(0);
        if n == 0 || take_part(rt, &mut kept, &input[..n], lines)?.is_break() {
            break;
        }
    }
    Ok(())
}

// A write that fails is the end.
fn main(rt: HostRuntime) -> io::Result<()> {
    let mut input = [0u8; 65536];
    let mut lines = no_lines();
    run(&rt, &mut rt.reader(), &mut input, &mut lines)
}
