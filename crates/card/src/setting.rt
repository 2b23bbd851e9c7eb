// Setting the time, the strobe and the periodic output, where the clock is set and answers for its own ranges; and switching the jam. Each refused call leaves the card
// as it was.
ghost use Rattle.std.specs.Prelude.{◌≡◌};
ghost use Rattle.card.specs.Setting.{set_time, set_strobe, set_periodic, switch_jam, on_clock};

use crate::card::Card;
use crate::lawful::{is_lawful, rest_fits};
use clock::clock::Clock;
use clock::setting::{self, Dividers, StrobeAt};
use parts::settings::jam_fits;
use wire::numbers::{Answer, Refusal};

// The card with what its clock answered: 18 where it is not lawful elsewhere. A refused clock comes back as it was.
#[tactic(auto, using(wire::proofs::numbers::Names::names), unfolding(crate::specs::Setting::on_clock))]
fn with_clock(card: Card, answer: Answer<Clock, ()>) -> Answer<Card, ()>
    ensures { result ≡ on_clock card answer }
{
    if !rest_fits(card) {
        return Answer::refused(card, Refusal::Unlawful);
    }
    let mut c = card;
    c.clock = answer.after;
    Answer {
        after: c,
        outcome: answer.outcome,
    }
}

// Sets the time, with the fraction of the second zero: 11 for a field outside its range. It raises no edge.
#[tactic(auto, using(crate::proofs::setting::Laws::sets_time))]
pub fn set_time(
    card: Card,
    year: u16,
    day: u16,
    hour: u16,
    minute: u16,
    second: u16,
) -> Answer<Card, ()>
    ensures { result ≡ set_time card year day hour minute second }
{
    with_clock(
        card,
        setting::set_time(card.clock, year, day, hour, minute, second),
    )
}

// Sets the strobe, off included: 13 for a field outside its range.
#[tactic(auto, using(crate::proofs::setting::Laws::sets_strobe))]
pub fn set_strobe(card: Card, at: StrobeAt) -> Answer<Card, ()>
    ensures { result ≡ set_strobe card at }
{
    with_clock(card, setting::set_strobe(card.clock, at))
}

// Sets the dividers and starts the count at 0, or turns the output off: 12 for a divider outside its range.
#[tactic(auto, using(crate::proofs::setting::Laws::sets_periodic))]
pub fn set_periodic(card: Card, dividers: Dividers) -> Answer<Card, ()>
    ensures { result ≡ set_periodic card dividers }
{
    with_clock(card, setting::set_periodic(card.clock, dividers))
}

// Switches the jam on or off: 25 for on while a large offset is held. Nothing else changes.
#[tactic(auto, using(wire::proofs::numbers::Names::names), unfolding(crate::specs::Setting::switch_jam))]
pub fn switch_jam(card: Card, on: bool) -> Answer<Card, ()>
    ensures { result ≡ switch_jam card on }
{
    if !is_lawful(card) {
        return Answer::refused(card, Refusal::Unlawful);
    }
    if !jam_fits(on, card.settings) {
        return Answer::refused(card, Refusal::JamOn);
    }
    let mut c = card;
    c.jam = on;
    Answer::done(c, ())
}
