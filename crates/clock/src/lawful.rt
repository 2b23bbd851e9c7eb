// 18: whether a clock is lawful.
ghost use Rattle.std.specs.Prelude.{◌≡◌, true, false, MatchResult};
ghost use Rattle.wire.specs.declared.numbers.Refusal.TheVariants as Refusal;
ghost use Rattle.clock.specs.Time.{time_lawful};
ghost use Rattle.clock.specs.Falling.{strobe_lawful, periodic_lawful};
ghost use Rattle.clock.specs.Clocks.{clock_lawful};

use crate::clock::{Clock, Periodic, Strobe};
use crate::falling::period_of;
use crate::time::{Time, days_in};
use wire::numbers::Refusal;
use wire::time::TICKS_OF_DAY;

// A year 1 to 9999, a day within it, a tick of day.
#[tactic(auto, unfolding(crate::specs::Time::time_lawful))]
fn time_fits(t: Time) -> bool
    ensures { result ≡ time_lawful t }
{
    (1..=9999).contains(&t.year)
        && (1..=days_in(t.year)).contains(&t.day)
        && t.tick.ticks < TICKS_OF_DAY
}

#[tactic(auto, unfolding(crate::specs::Falling::strobe_lawful))]
fn strobe_fits(s: Strobe) -> bool
    ensures { result ≡ strobe_lawful s }
{
    match s {
        Strobe::Off => true,
        Strobe::Daily(t) => t.ms < 86_400_000,
        Strobe::EachSecond(t) => t.ms < 1_000,
    }
}

// Dividers of 2 and up, and a count below their product.
#[tactic(auto, unfolding(crate::specs::Falling::periodic_lawful))]
fn periodic_fits(p: Periodic) -> bool
    ensures { result ≡ periodic_lawful p }
{
    match p {
        Periodic::Off => true,
        Periodic::Every { n1, n2, count } => n1 >= 2
            && n2 >= 2
            && u64::from(count) < period_of(n1, n2),
    }
}

// Whether any call takes this clock. Asked first in each of them.
#[tactic(auto, unfolding(crate::specs::Clocks::clock_lawful))]
pub fn clock_fits(clock: Clock) -> bool
    ensures { result ≡ clock_lawful clock }
{
    time_fits(clock.time) && strobe_fits(clock.strobe) && periodic_fits(clock.periodic)
}

// A clock that calls take.
#[derive(Clone, Copy)]
pub(crate) struct LawfulClock {
    pub clock: Clock,
    ghost lawful: { clock_lawful clock ≡ true },
}

impl LawfulClock {
    // 18 for a clock that is not lawful.
    pub(crate) fn of(clock: Clock) -> Result<Self, Refusal>
        ensures { MatchResult result (λ k. k.clock ≡ clock) (λ r. (r ≡ Refusal.Unlawful) × (clock_lawful clock ≡ false)) }
    {
        if clock_fits(clock) {
            Ok(LawfulClock { clock })
        } else {
            Err(Refusal::Unlawful)
        }
    }
}
