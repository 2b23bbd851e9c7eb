// Reset, and a fresh card.
ghost use Rattle.std.specs.Prelude.{◌≡◌};
ghost use Rattle.card.specs.Reset.{reset_card, reset, fresh_card};

use crate::card::Card;
use crate::lawful::is_lawful;
use clock::clock::{Clock, Periodic, Strobe};
use clock::time::Time;
use parts::event::Event;
use parts::interrupts::Interrupts;
use parts::queue::empty_queue;
use parts::settings::Settings;
use wire::numbers::{Answer, Refusal};
use wire::packets::{ClockSource, Format, Generator, Modulation};
use wire::time::Ticks;

// A reset card of a time, with what stays of these settings.
fn reset_card(time: Time, settings: Settings) -> Card
    ensures { result ≡ reset_card time settings }
{
    Card {
        queue: empty_queue(),
        clock: Clock {
            time,
            strobe: Strobe::Off,
            periodic: Periodic::Off,
        },
        time_latch: [0; 5],
        event: Event {
            control: 0,
            closed: false,
            missed: 0,
            latch: [0; 5],
        },
        settings: Settings {
            clock: ClockSource::Internal,
            offset: 0,
            ..settings
        },
        jam: true,
        interrupts: Interrupts {
            mask: 0,
            pending: 0,
            level: 0,
            vector: 0,
        },
        done: false,
    }
}

// Resets a card: time, year, mode, format, modulation and generator code stay.
#[tactic(auto, using(wire::proofs::numbers::Names::names), unfolding(crate::specs::Reset::reset))]
pub fn reset(card: Card) -> Answer<Card, ()>
    ensures { result ≡ reset card }
{
    if !is_lawful(card) {
        return Answer::refused(card, Refusal::Unlawful);
    }
    Answer::done(reset_card(card.clock.time, card.settings), ())
}

// A reset card with year 1, day 1, tick 0, mode 0, format B, modulation M, generator B.
#[tactic(auto, unfolding(crate::specs::Reset::fresh_card))]
pub fn fresh_card() -> Card
    ensures { result ≡ fresh_card }
{
    let time = Time {
        year: 1,
        day: 1,
        tick: Ticks { ticks: 0 },
    };
    let settings = Settings {
        mode: 0,
        format: Format::B,
        modulation: Modulation::M,
        clock: ClockSource::Internal,
        generator: Generator::B,
        offset: 0,
    };
    reset_card(time, settings)
}
