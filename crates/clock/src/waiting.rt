// Waiting: every fall of a window, once, in order.
ghost use Rattle.std.specs.Prelude.{◌≡◌, ◌+◌, ◌*◌, ◌≤◌, ◌<◌, ◌≢◌, length, MatchOption, MatchResult};
ghost use Rattle.wire.specs.Numbers.{refusal};
ghost use Rattle.clock.specs.Waiting.{row_listed, listing, pass_refusal, pass, row_passed};
ghost use Rattle.clock.specs.Sources.{least_of, mark_of, marks, past_of, all_past, Brief, within};

use crate::clock::Clock;
use crate::falling::{Source, Sources};
use crate::later::Span;
use crate::lawful::LawfulClock;
use wire::numbers::{Answer, Refusal};
use wire::time::Ticks;

// Which of the three sources fell.
#[derive(Clone, Copy, Debug, PartialEq, Eq)]
pub struct Fell {
    pub periodic: bool,
    pub strobe: bool,
    pub second: bool,
}

// What a wait gives: the ticks passed, the records written, and the sources that they have.
#[derive(Clone, Copy, Debug, PartialEq, Eq)]
pub struct Passed {
    pub passed: Ticks,
    pub written: usize,
    pub fell: Fell,
}

impl Source {
    // The weight of the source in a record, if its next fall is on that tick.
    fn mark(self, at: Span, weight: u64) -> u64
        ensures { (result ≡ mark_of self at.ticks weight) × (result ≤ weight) }
    {
        if self.next == at.ticks { weight } else { 0 }
    }

    // The source past a tick: a period on if it fell there.
    #[tactic(auto, unfolding(crate::specs::Sources::past_of))]
    fn past(self, at: Span) -> Source
        requires { self.period ≤ 864000000000 }
        ensures { result ≡ past_of self at.ticks }
    {
        if self.next == at.ticks {
            Source {
                next: at.ticks + self.period,
                ..self
            }
        } else {
            self
        }
    }
}

impl Sources {
    // The least of the three next falls.
    fn least(self) -> u64
        ensures { result ≡ least_of self }
    {
        self.second
            .next
            .min(self.strobe.next)
            .min(self.periodic.next)
    }

    // The record of a tick.
    #[tactic(auto, unfolding(crate::specs::Sources::marks))]
    fn record_on(self, at: Span) -> u64
        ensures { result ≡ 8 * at.ticks + marks self at.ticks }
    {
        8 * at.ticks
            + (self.periodic.mark(at, 1) + (self.strobe.mark(at, 2) + self.second.mark(at, 4)))
    }

    // The three past a tick.
    #[tactic(auto, unfolding(crate::specs::Sources::all_past))]
    fn past(self, at: Span) -> Sources
        requires { Brief self }
        ensures { result ≡ all_past self at.ticks }
    {
        Sources {
            second: self.second.past(at),
            strobe: self.strobe.past(at),
            periodic: self.periodic.past(at),
        }
    }

    // A row filled so far: a source has fallen exactly if its first fall is among the ticks passed, so nothing is gathered on the way.
    fn told(self, passed: u64, written: usize) -> Passed
        ensures { result ≡ record { passed = record { ticks = passed }; written = written; fell = within self passed } }
    {
        Passed {
            passed: Ticks { ticks: passed },
            written,
            fell: Fell {
                periodic: self.periodic.next <= passed,
                strobe: self.strobe.next <= passed,
                second: self.second.next <= passed,
            },
        }
    }
}

impl Span {
    // A tick, if it is among these.
    fn reach(self, tick: u64) -> Option<Span>
        ensures { MatchOption result (self.ticks < tick) (λ s. (s.ticks ≡ tick) × (tick ≤ self.ticks)) }
    {
        if tick <= self.ticks {
            Some(Span { ticks: tick })
        } else {
            None
        }
    }
}

impl LawfulClock {
    // Fills the row with the records of a window, from one next fall to the next. Places behind them stay as they were.
    fn list(self, span: Span, row: &mut [u64]) -> Passed
        requires { 0 < length row.old }
        ensures { (result ≡ listing self.clock span.ticks (length row.old)) × (row.new ≡ row_listed self.clock span.ticks row.old) }
    {
        let first = self.sources();
        let mut next = first;
        let mut last = 0;
        for (i, place) in row.iter_mut().enumerate() {
            let Some(at) = span.reach(next.least()) else {
                return first.told(span.ticks, i);
            };
            *place = next.record_on(at);
            next = next.past(at);
            last = at.ticks;
        }
        if span.ticks < next.least() {
            first.told(span.ticks, row.len())
        } else {
            first.told(last, row.len())
        }
    }
}

// The wait that is asked for, or why it is refused.
#[tactic(auto, using(wire::proofs::numbers::Names::names), unfolding(crate::specs::Waiting::pass_refusal))]
fn asked(clock: Clock, ticks: Ticks, room: usize) -> Result<(LawfulClock, Span), Refusal>
    ensures { MatchResult result (λ w. ((w.0.clock ≡ clock) × (w.1.ticks ≡ ticks.ticks)) × (pass_refusal clock ticks.ticks room ≡ 0)) (λ r. (r ≡ refusal (pass_refusal clock ticks.ticks room)) × (pass_refusal clock ticks.ticks room ≢ 0)) }
{
    let clock = LawfulClock::of(clock)?;
    let span = Span::of(ticks.ticks)?;
    if room == 0 {
        return Err(Refusal::ShortRow);
    }
    if clock.time_later(span).year > 9999 {
        return Err(Refusal::Past9999);
    }
    Ok((clock, span))
}

// Lets at most a day of ticks pass: lists in the row every tick after the start, up to the last tick passed, on which second, strobe or periodic falls. It
// stops early only if there are more such ticks than places. Refused by 18, 15, 14 and 16, in this order, it changes nothing.
pub fn pass(clock: Clock, ticks: Ticks, row: &mut [u64]) -> Answer<Clock, Passed>
    ensures { (result ≡ pass clock ticks.ticks (length row.old)) × (row.new ≡ row_passed clock ticks.ticks row.old) }
{
    match asked(clock, ticks, row.len()) {
        Ok((clock, span)) => {
            let listed = clock.list(span, row);
            let passed = Span {
                ticks: listed.passed.ticks,
            };
            Answer::done(clock.later(passed), listed)
        }
        Err(refusal) => Answer::refused(clock, refusal),
    }
}
