// 18: whether a card is lawful: each part answers for its own ranges, and the settings for the jam beside them. The clock is asked first, and the queue, whose test takes
// longest, last.
ghost use Rattle.std.specs.Prelude.{◌≡◌};
ghost use Rattle.card.specs.Lawful.{rest_lawful, lawful};

use crate::card::Card;
use clock::lawful::clock_fits;
use parts::event::{control_fits, latches_fit};
use parts::interrupts::interrupts_fit;
use parts::queue::queue_fits;
use parts::settings::{jam_fits, settings_fit};

// What is not the clock's: the clock answers for its own ranges.
#[tactic(auto, using(crate::proofs::lawful::Laws::rest_parts))]
pub(crate) fn rest_fits(card: Card) -> bool
    ensures { result ≡ rest_lawful card }
{
    interrupts_fit(card.interrupts)
        && control_fits(card.event.control, card.event.closed)
        && settings_fit(card.settings)
        && jam_fits(card.jam, card.settings)
        && latches_fit(card.time_latch, card.event.latch)
        && queue_fits(card.queue)
}

// Whether any call takes this card. Asked first in each of them.
#[tactic(auto, using(crate::proofs::lawful::Laws::clock_first))]
pub fn is_lawful(card: Card) -> bool
    ensures { result ≡ lawful card }
{
    clock_fits(card.clock) && rest_fits(card)
}
