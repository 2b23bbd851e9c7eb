// Loops that fill a row: plainly, and by waits of a day, each from the card that the last one left.
ghost use Rattle.std.specs.Prelude.{◌≤◌, ◌<◌, length};

use crate::sums::{mixed, with_card, with_wait};
use card::card::Card;
use card::waiting::Waited;
use wire::numbers::Answer;
use wire::time::{TICKS_OF_DAY, Ticks};

// What one plain value is above the one before: as much as the second's records are, since waits are compared with it.
const STEP: u64 = 80_000_000;

// A row filled plainly: each value so much above the one before.
fn fill_row(row: &mut [u64], first: u64)
    requires { (length row.old ≤ 1000000) × (first < 4294967296) }
{
    for (i, place) in row.iter_mut().enumerate() {
        *place = first + (i as u64) * STEP;
    }
}

fn last_of(row: &[u64]) -> u64 {
    match row {
        [.., last] => *last,
        [] => 0,
    }
}

// Fills of a row, each from a value that the last one gave.
pub(crate) fn fills(times: usize, row: &mut [u64]) -> u64
    requires { length row.old ≤ 1000000 }
{
    let mut sum: u64 = 0;
    for _ in 0..times {
        fill_row(row, sum % 4_294_967_296);
        sum = mixed(sum, last_of(row));
    }
    sum
}

// Waits of a day, as far as the row has places, each by a call: by value or in place.
pub(crate) fn waits<W: Fn(Card, Ticks, &mut [u64]) -> Answer<Card, Waited>>(
    mut card: Card,
    times: usize,
    row: &mut [u64],
    wait: W,
) -> u64
    requires { W.IsAlwaysCallable wait }
{
    let day = Ticks {
        ticks: TICKS_OF_DAY,
    };
    let mut sum: u64 = 0;
    for _ in 0..times {
        let w = wait(card, day, row);
        sum = with_wait(sum, w.outcome, row);
        card = w.after;
    }
    with_card(sum, card)
}
