// The wait in place, of a card that is lent to it for the call.
#![tactic(auto)]

ghost use Rattle.std.specs.Prelude.{◌≡◌, length};
ghost use Rattle.card.specs.Waiting.{wait, row_waited};

use card::card::Card;
use card::waiting::{Waited, wait_in_place};
use wire::numbers::Answer;
use wire::time::Ticks;

// The wait in place, of a card that is lent to it: it gives what the wait by value gives.
pub fn in_place(mut card: Card, ticks: Ticks, row: &mut [u64]) -> Answer<Card, Waited>
    ensures { (result ≡ wait card ticks.ticks (length row.old)) × (row.new ≡ row_waited card ticks.ticks row.old) }
{
    let outcome = wait_in_place(&mut card, ticks, row);
    Answer {
        after: card,
        outcome,
    }
}
