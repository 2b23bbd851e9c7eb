// The frames' lines, gathered in a row of fixed size. What is proved of them: any line finds room, and takes no more of it than `LINE`.
ghost use Rattle.std.specs.Prelude.{◌≡◌, ◌+◌, ◌≤◌, IfOk};

use itoa::write_digits;
use std::io;
use wire::numbers::Refusal;
use wire::words::Moment;

// Room for any line: four numbers of at most twenty digits, and a byte behind each.
const LINE: usize = 84;

// Lines that are not written yet, at the front of a row.
#[derive(Drop)]
pub(crate) struct Lines {
    row: [u8; 65536],
    fill: usize,
}

// No lines.
pub(crate) fn no_lines() -> Lines
    ensures { result.fill ≡ 0 }
{
    Lines {
        row: [0; 65536],
        fill: 0,
    }
}

// A number in decimal, and a byte behind it.
fn put_number(n: u64, end: u8, lines: &mut Lines)
    requires { lines.old.fill + 21 ≤ 65536 }
    ensures { lines.new.fill ≤ lines.old.fill + 21 }
{
    let mut digits = [0u8; 20];
    let first = write_digits(n, &mut digits, 20);
    let at = lines.fill;
    let behind = at + (20 - first);
    lines.row[at..behind].copy_from_slice(&digits[first..]);
    lines.row[behind] = end;
    lines.fill = behind + 1;
}

// The line of a frame: the number of its element 0, the frame's own number, and, if that is 0, its day and its tick of day. A frame is the last hundred of the elements that
// were taken.
fn put_line(taken: u64, frame: Result<Moment, Refusal>, lines: &mut Lines)
    requires { lines.old.fill + 84 ≤ 65536 }
    ensures { lines.new.fill ≤ lines.old.fill + 84 }
{
    put_number(taken.wrapping_sub(100), b' ', lines);
    match frame {
        Ok(moment) => {
            put_number(0, b' ', lines);
            put_number(u64::from(moment.day), b' ', lines);
            put_number(moment.tick.ticks, b'\n', lines);
        }
        Err(refusal) => put_number(u64::from(refusal.number()), b'\n', lines),
    }
}

// Writes out what the row holds, and empties it.
pub(crate) fn write_out(rt: &impl Print, lines: &mut Lines) -> io::Result<()>
    requires { lines.old.fill ≤ 65536 }
    ensures { IfOk result (λ _. lines.new.fill ≡ 0) }
{
    rt.write_all(&lines.row[..lines.fill])?;
    lines.fill = 0;
    Ok(())
}

// The line of a frame. If the row then has no room for one more, its lines are written out.
pub(crate) fn put_out(
    rt: &impl Print,
    taken: u64,
    frame: Result<Moment, Refusal>,
    lines: &mut Lines,
) -> io::Result<()>
    requires { lines.old.fill + 84 ≤ 65536 }
    ensures { IfOk result (λ _. lines.new.fill + 84 ≤ 65536) }
{
    put_line(taken, frame, lines);
    if 65_536 - LINE < lines.fill {
        write_out(rt, lines)?;
    }
    Ok(())
}
