// The event input, and what both latches must be.
ghost use Rattle.std.specs.Prelude.{◌≡◌, ◌&&◌};
ghost use Rattle.wire.specs.Digits.{below};
ghost use Rattle.wire.specs.Words.{words_or_zero};
ghost use Rattle.parts.specs.Events.{keeps_first, latch_lawful, control_lawful, control_written, opened, matching, edge_taken};

use wire::time::Ticks;
use wire::words::{read_words, words_of};

// CONTROL, which decides what edges match; whether the event latch is closed, how many edges it missed, and its words.
#[derive(Clone, Copy, Debug, PartialEq, Eq)]
pub struct Event {
    pub control: u8,
    pub closed: bool,
    pub missed: u16,
    pub latch: [u16; 5],
}

#[tactic(auto, using(crate::proofs::event::Laws::five_zeros))]
fn latch_zero(words: [u16; 5]) -> bool
    ensures { result ≡ below 1 words }
{
    words == [0; 5]
}

#[tactic(auto, unfolding(crate::specs::Events::latch_lawful))]
fn latch_fits(words: [u16; 5]) -> bool
    ensures { result ≡ latch_lawful words }
{
    latch_zero(words) || read_words(words).is_ok()
}

// Whether both latches are lawful: all zero, or readable. Zeros are looked for first, in both.
#[tactic(auto, using(crate::proofs::event::Laws::latches_zero))]
pub fn latches_fit(time_latch: [u16; 5], event_latch: [u16; 5]) -> bool
    ensures { result ≡ (latch_lawful time_latch && latch_lawful event_latch) }
{
    latch_zero(time_latch) && latch_zero(event_latch)
        || latch_fits(time_latch) && latch_fits(event_latch)
}

// Whether CONTROL has bit 2 set, which keeps the first trip.
#[tactic(auto, using(crate::proofs::pending::Bits::bit_2_by_and))]
fn keeps_first(control: u8) -> bool
    ensures { result ≡ keeps_first control }
{
    control & 4 != 0
}

// Whether CONTROL is lawful beside a latch that is closed or open.
#[tactic(auto, unfolding(crate::specs::Events::control_lawful))]
pub fn control_fits(control: u8, closed: bool) -> bool
    ensures { result ≡ control_lawful control closed }
{
    control < 8 && (!closed || keeps_first(control))
}

// The event input after writing CONTROL. Clearing bit 2 opens the latch and keeps the count.
#[tactic(auto, using(crate::proofs::event::Laws::bit_written))]
pub fn write_control(event: Event, value: u16) -> Event
    ensures { result ≡ control_written event value }
{
    let control = (value % 8) as u8;
    Event {
        control,
        closed: event.closed && keeps_first(control),
        ..event
    }
}

// The event input after writing register 18: the latch is open and the count clear. CONTROL and the words stay.
pub fn open_latch(event: Event) -> Event
    ensures { result ≡ opened event }
{
    Event {
        closed: false,
        missed: 0,
        ..event
    }
}

// Whether an edge matches: capture is on, and the edge is of the chosen kind.
#[tactic(auto, using(crate::proofs::pending::Bits::bit_0_by_and, crate::proofs::event::Laws::kind_decides), unfolding(crate::specs::Events::matching))]
pub fn is_matching(control: u8, falling: bool) -> bool
    ensures { result ≡ matching control falling }
{
    control & 1 != 0 && (control & 2 != 0) == falling
}

// The event input after a matching edge at this day and tick. An open latch takes the words, and is closed with bit 2 set; a closed one stays, and the count goes up,
// to 65,535 at most, for which no words are made.
#[tactic(auto, unfolding(crate::specs::Events::edge_taken))]
pub fn take_edge(event: Event, day: u16, tick: Ticks) -> Event
    ensures { result ≡ edge_taken event (words_or_zero day tick.ticks) }
{
    if event.closed {
        return Event {
            missed: event.missed.saturating_add(1),
            ..event
        };
    }
    Event {
        closed: keeps_first(event.control),
        latch: words_of(day, tick),
        ..event
    }
}
