// Reading a frame.
ghost use Rattle.std.specs.Prelude.{◌≡◌, ◌≤◌, length};
ghost use Rattle.wire.specs.Words.{read_words};
ghost use Rattle.irig.specs.Reading.{read_frame, scanned, words_in};

use crate::table::{ELEMENTS, MARKER, NO_SHIFT, shifts};
use wire::numbers::Refusal;
use wire::time::TICKS_OF_SECOND;
use wire::words::{Moment, read_words};

// What each set spare element adds: all fields together stay below it.
const SPARES: u64 = 9_007_199_254_740_992;

// One pass over the elements, which ends at the first that does not fit: the number that holds them, if all fit.
#[tactic(auto, using(crate::proofs::reading::Laws::scans))]
fn scan(row: &[u8]) -> Option<u64>
    requires { 100 ≤ length row.now }
    ensures { result ≡ scanned row.now }
{
    let mut number = 0;
    for (&shift, &element) in shifts().iter().zip(row) {
        match (shift, element) {
            (NO_SHIFT, MARKER) => {}
            (NO_SHIFT, _) | (_, 2..) => return None,
            (_, bit) => number += u64::from(bit) << shift,
        }
    }
    Some(number)
}

// What the digits of a number are read as: they stand in it as in time words, and there is no fraction.
#[tactic(auto, unfolding(crate::specs::Reading::words_in))]
fn read_digits(number: u64) -> Result<Moment, Refusal>
    ensures { result ≡ read_words (words_in number) }
{
    let hundreds = ((number >> 32) % 16) as u16;
    let days_and_hours = ((number >> 16) % 65_536) as u16;
    let minutes_and_seconds = (number % 65_536) as u16;
    read_words([hundreds, days_and_hours, minutes_and_seconds, 0, 0])
}

// The day and the tick of day that a frame writes, in the first 100 places of a row: 14 for a shorter row, 22 for a marker that is missing or misplaced or an element above 2,
// 23 for a set spare element, 17 for a digit above 9, 11 for a field outside its range, 24 for binary seconds that are not those of the digits.
// Places behind the hundred are not looked at.
#[tactic(auto, using(crate::proofs::reading::Laws::frames))]
pub fn read_frame(row: &[u8]) -> Result<Moment, Refusal>
    ensures { result ≡ read_frame row.now }
{
    if row.len() < ELEMENTS {
        return Err(Refusal::ShortRow);
    }
    let number = scan(row).ok_or(Refusal::WrongMarker)?;
    if SPARES <= number {
        return Err(Refusal::SpareSet);
    }
    let moment = read_digits(number)?;
    if moment.tick.ticks != (number >> 36) * TICKS_OF_SECOND {
        return Err(Refusal::SecondsDiffer);
    }
    Ok(moment)
}
