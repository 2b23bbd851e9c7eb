// Waiting, of a card: its clock passes the window and lists what falls, and the pending bits of all listed sources are raised.
ghost use Rattle.std.specs.Prelude.{◌≡◌, length};
ghost use Rattle.card.specs.Waiting.{wait, row_waited};

use crate::card::Card;
use crate::lawful::rest_fits;
use clock::waiting::pass;
use parts::interrupts::raise_sources;
use wire::numbers::{Answer, Refusal};
use wire::time::Ticks;

// What a wait gives: the ticks passed and the records written.
#[derive(Clone, Copy)]
pub struct Waited {
    pub passed: Ticks,
    pub written: usize,
}

// A wait of at most a day: lists in the row every tick after the start, up to the last tick passed, on which second, strobe or periodic falls. It stops
// early only if there are more such ticks than places. Refused by 18, 15, 14 and 16, in this order, it changes nothing.
pub fn wait(card: Card, ticks: Ticks, row: &mut [u64]) -> Answer<Card, Waited>
    ensures { (result ≡ wait card ticks.ticks (length row.old)) × (row.new ≡ row_waited card ticks.ticks row.old) }
{
    if !rest_fits(card) {
        return Answer::refused(card, Refusal::Unlawful);
    }
    let answer = pass(card.clock, ticks, row);
    match answer.outcome {
        Err(refusal) => Answer::refused(card, refusal),
        Ok(p) => {
            let mut c = card;
            c.clock = answer.after;
            c.interrupts = raise_sources(
                card.interrupts,
                p.fell.periodic,
                p.fell.strobe,
                p.fell.second,
            );
            Answer::done(
                c,
                Waited {
                    passed: p.passed,
                    written: p.written,
                },
            )
        }
    }
}

// The same wait of a card where it stands.
pub fn wait_in_place(card: &mut Card, ticks: Ticks, row: &mut [u64]) -> Result<Waited, Refusal>
    ensures { (result ≡ (wait card.old ticks.ticks (length row.old)).outcome) × ((card.new ≡ (wait card.old ticks.ticks (length row.old)).after) × (row.new ≡ row_waited card.old ticks.ticks row.old)) }
{
    let answer = wait(*card, ticks, row);
    *card = answer.after;
    answer.outcome
}
