// Writing a frame for a card's time.
ghost use Rattle.std.specs.Prelude.{◌≡◌, true, ◌++◌, map, ◌≤◌, length, drop};
ghost use Rattle.wire.specs.Numbers.{answered};
ghost use Rattle.wire.specs.Words.{writable};
ghost use Rattle.irig.specs.Table.{table, shift_of};
ghost use Rattle.irig.specs.Writing.{field_of, write_refusal, row_written, Holds, element_at};

use crate::table::{ELEMENTS, MARKER, NO_SHIFT, shifts};
use card::card::Card;
use card::lawful::is_lawful;
use wire::numbers::Refusal;
use wire::time::{TICKS_OF_SECOND, Ticks};
use wire::words::words_of;

// The number that holds a time's fields: the digits as its words have them, and above them the seconds of the day.
#[tactic(auto, using(crate::proofs::writing::Laws::number_holds, crate::proofs::writing::Laws::number_small))]
fn fields_of(day: u16, tick: Ticks) -> u64
    requires { writable day tick.ticks ≡ true }
    ensures { Holds result (field_of day tick.ticks) }
{
    let [hundreds, days_and_hours, minutes_and_seconds, ..] = words_of(day, tick);
    let days = u64::from(hundreds) * 65_536 + u64::from(days_and_hours);
    let digits = days * 65_536 + u64::from(minutes_and_seconds);
    tick.ticks / TICKS_OF_SECOND * 68_719_476_736 + digits
}

// An element, by its shift in the number.
#[tactic(auto, unfolding(crate::specs::Writing::element_at, crate::specs::Table::digit_of))]
fn element(number: u64, shift: u8) -> u8
    requires { shift ≤ 64 }
    ensures { result ≡ element_at number shift }
{
    if shift == NO_SHIFT {
        MARKER
    } else {
        ((number >> shift) % 2) as u8
    }
}

// The elements of a number at the front of a row. Places behind them stay as they were.
#[tactic(auto, using(crate::proofs::table::Laws::shift_most, crate::proofs::writing::Laws::put_none, crate::proofs::writing::Laws::put_more, crate::proofs::writing::Laws::put_all))]
fn put_elements(number: u64, row: &mut [u8])
    requires { 100 ≤ length row.old }
    ensures { row.new ≡ map (element_at number) (map shift_of table) ++ drop 100 row.old }
{
    // By places: the proof follows the elements that are put by their places in the row.
    for (i, &shift) in shifts().iter().enumerate() {
        row[i] = element(number, shift);
    }
}

// A card's time, without its fraction, as a frame at the front of a row: 18 for a card that is not lawful, 14 where the row is too short. Places behind the frame, and the
// whole row beside a refusal, stay as they were.
#[tactic(auto, using(crate::proofs::writing::Laws::time_writable, crate::proofs::writing::Laws::refused_18, crate::proofs::writing::Laws::refused_14, crate::proofs::writing::Laws::not_refused, crate::proofs::writing::Laws::row_18, crate::proofs::writing::Laws::row_14, crate::proofs::writing::Laws::row_0))]
pub fn write_frame(card: Card, row: &mut [u8]) -> Result<(), Refusal>
    ensures { (result ≡ answered (write_refusal card (length row.old)) tt) × (row.new ≡ row_written card row.old) }
{
    if !is_lawful(card) {
        return Err(Refusal::Unlawful);
    }
    if row.len() < ELEMENTS {
        return Err(Refusal::ShortRow);
    }
    let time = card.clock.time;
    put_elements(fields_of(time.day, time.tick), row);
    Ok(())
}
