// The clock so many ticks later.
ghost use Rattle.std.specs.Prelude.{◌≡◌, ◌≤◌, ◌<◌, MatchResult};
ghost use Rattle.wire.specs.declared.numbers.Refusal.TheVariants as Refusal;
ghost use Rattle.clock.specs.Time.{later};
ghost use Rattle.clock.specs.Waiting.{count_later, clock_later};

use crate::clock::{Clock, Periodic};
use crate::falling::period_of;
use crate::lawful::LawfulClock;
use crate::time::{Time, days_in};
use wire::numbers::Refusal;
use wire::time::{TICKS_OF_DAY, Ticks};

// Ticks of at most a day.
#[derive(Clone, Copy)]
pub(crate) struct Span {
    pub ticks: u64,
    ghost within: { ticks ≤ 864000000000 },
}

impl Span {
    // 15 for more than a day.
    pub(crate) fn of(ticks: u64) -> Result<Self, Refusal>
        ensures { MatchResult result (λ s. s.ticks ≡ ticks) (λ r. (r ≡ Refusal.OverADay) × (864000000000 < ticks)) }
    {
        if ticks <= TICKS_OF_DAY {
            Ok(Span { ticks })
        } else {
            Err(Refusal::OverADay)
        }
    }
}

impl LawfulClock {
    // The time then: one day or none is carried.
    pub(crate) fn time_later(self, span: Span) -> Time
        ensures { result ≡ later span.ticks self.clock.time }
    {
        let time = self.clock.time;
        let ticks = time.tick.ticks + span.ticks;
        if ticks < TICKS_OF_DAY {
            return Time {
                tick: Ticks { ticks },
                ..time
            };
        }
        let tick = Ticks {
            ticks: ticks - TICKS_OF_DAY,
        };
        if time.day < days_in(time.year) {
            Time {
                day: time.day + 1,
                tick,
                ..time
            }
        } else {
            Time {
                year: time.year + 1,
                day: 1,
                tick,
            }
        }
    }

    // The count then.
    fn count_later(self, span: Span) -> Periodic
        ensures { result ≡ count_later span.ticks self.clock.periodic }
    {
        match self.clock.periodic {
            Periodic::Off => Periodic::Off,
            Periodic::Every { n1, n2, count } => {
                let gone = (u64::from(count) + span.ticks) % period_of(n1, n2);
                Periodic::Every {
                    n1,
                    n2,
                    count: gone as u32,
                }
            }
        }
    }

    // All of it.
    #[tactic(auto, unfolding(crate::specs::Waiting::clock_later))]
    pub(crate) fn later(self, span: Span) -> Clock
        ensures { result ≡ clock_later span.ticks self.clock }
    {
        Clock {
            time: self.time_later(span),
            periodic: self.count_later(span),
            ..self.clock
        }
    }
}
