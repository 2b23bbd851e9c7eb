// The card's time.
ghost use Rattle.std.specs.Prelude.{◌≡◌};
ghost use Rattle.clock.specs.Time.{days_in, days_before};

use wire::time::Ticks;

// An instant: a year 1 to 9999, a day within it from 1 on, a tick of day.
#[derive(Clone, Copy, Debug, PartialEq, Eq)]
pub struct Time {
    pub year: u16,
    pub day: u16,
    pub tick: Ticks,
}

// The days of a year: 366 if 4 divides it and 100 does not, or 400 divides it, else 365.
#[tactic(auto, unfolding(crate::specs::Time::days_in))]
pub fn days_in(year: u16) -> u16
    ensures { result ≡ days_in year }
{
    if year % 4 == 0 && (year % 100 != 0 || year % 400 == 0) {
        366
    } else {
        365
    }
}

// The days of the years from 1 on that come before a year, none for 0 and 1: 365 for each, one more for every fourth, one less for every hundredth, and again one more for every four hundredth.
#[tactic(auto, using(crate::proofs::time::Years::before_by_centuries))]
pub fn days_before(year: u16) -> u32
    ensures { result ≡ days_before year }
{
    let years = u32::from(year.saturating_sub(1));
    let centuries = years / 100;
    365 * years + years / 4 - centuries + centuries / 4
}
