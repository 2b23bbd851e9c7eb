// Setting the time, the strobe and the periodic output. Each refused call leaves the clock as it was.
ghost use Rattle.std.specs.Prelude.{◌≡◌};
ghost use Rattle.wire.specs.Numbers.{given, answered};
ghost use Rattle.clock.specs.Setting.{time_of_day, date_fits, set_time, strobe_lines, strobe_kept, set_strobe, divider_lines, periodic_kept, set_periodic};

use crate::clock::{Clock, Periodic, Strobe};
use crate::lawful::LawfulClock;
use crate::time::{Time, days_in};
use wire::numbers::{Answer, Refusal};
use wire::time::{Milliseconds, tick_at};

// When the strobe is to fall: never; each day at a time of day; each second at a millisecond.
#[derive(Clone, Copy, Debug, PartialEq, Eq)]
pub enum StrobeAt {
    Off,
    Daily {
        hour: u16,
        minute: u16,
        second: u16,
        ms: u16,
    },
    EachSecond(u16),
}

// What the periodic output is to be divided by.
#[derive(Clone, Copy, Debug, PartialEq, Eq)]
pub enum Dividers {
    Off,
    By(u32, u32),
}

fn is_time_of_day(hour: u16, minute: u16, second: u16) -> bool
    ensures { result ≡ time_of_day hour minute second }
{
    hour <= 23 && minute <= 59 && second <= 59
}

#[tactic(auto, unfolding(crate::specs::Setting::date_fits))]
fn is_date(year: u16, day: u16, hour: u16, minute: u16, second: u16) -> bool
    ensures { result ≡ date_fits year day hour minute second }
{
    (1..=9999).contains(&year)
        && (1..=days_in(year)).contains(&day)
        && is_time_of_day(hour, minute, second)
}

// Sets the time, with the fraction of the second zero: 11 for a field outside its range. It raises no edge.
#[tactic(auto, using(wire::proofs::numbers::Names::unlawful_named, wire::proofs::numbers::Names::outside_time_named))]
pub fn set_time(
    clock: Clock,
    year: u16,
    day: u16,
    hour: u16,
    minute: u16,
    second: u16,
) -> Answer<Clock, ()>
    ensures { result ≡ set_time clock year day hour minute second }
{
    match LawfulClock::of(clock) {
        Ok(_) if is_date(year, day, hour, minute, second) => {
            let tick = tick_at(hour, minute, second, 0);
            let time = Time { year, day, tick };
            Answer::done(Clock { time, ..clock }, ())
        }
        Ok(_) => Answer::refused(clock, Refusal::OutsideTime),
        Err(refusal) => Answer::refused(clock, refusal),
    }
}

// The strobe as the clock keeps it, in milliseconds of the day or of the second.
#[tactic(auto, using(wire::proofs::numbers::Names::outside_strobe_named), unfolding(crate::specs::Setting::strobe_fits))]
fn kept_strobe(at: StrobeAt) -> Result<Strobe, Refusal>
    ensures { result ≡ answered (given (strobe_lines at)) (strobe_kept at) }
{
    match at {
        StrobeAt::Off => Ok(Strobe::Off),
        StrobeAt::Daily {
            hour,
            minute,
            second,
            ms,
        } if is_time_of_day(hour, minute, second) && ms <= 999 => {
            let seconds = (u32::from(hour) * 60 + u32::from(minute)) * 60 + u32::from(second);
            Ok(Strobe::Daily(Milliseconds {
                ms: seconds * 1000 + u32::from(ms),
            }))
        }
        StrobeAt::EachSecond(ms) if ms <= 999 => Ok(Strobe::EachSecond(Milliseconds {
            ms: u32::from(ms),
        })),
        _ => Err(Refusal::OutsideStrobe),
    }
}

// Sets the strobe, off included: 13 for a field outside its range.
#[tactic(auto, using(wire::proofs::numbers::Names::unlawful_named))]
pub fn set_strobe(clock: Clock, at: StrobeAt) -> Answer<Clock, ()>
    ensures { result ≡ set_strobe clock at }
{
    match LawfulClock::of(clock).and_then(|_| kept_strobe(at)) {
        Ok(strobe) => Answer::done(Clock { strobe, ..clock }, ()),
        Err(refusal) => Answer::refused(clock, refusal),
    }
}

// The periodic output as the clock keeps it, with its count at 0.
#[tactic(auto, using(wire::proofs::numbers::Names::outside_divider_named), unfolding(crate::specs::Setting::dividers_fit))]
fn kept_periodic(dividers: Dividers) -> Result<Periodic, Refusal>
    ensures { result ≡ answered (given (divider_lines dividers)) (periodic_kept dividers) }
{
    match dividers {
        Dividers::Off => Ok(Periodic::Off),
        Dividers::By(n1 @ 2..=65_535, n2 @ 2..=65_535) => Ok(Periodic::Every {
            n1: n1 as u16,
            n2: n2 as u16,
            count: 0,
        }),
        Dividers::By(..) => Err(Refusal::OutsideDivider),
    }
}

// Sets the dividers and starts the count at 0, or turns the output off: 12 for a divider outside its range.
#[tactic(auto, using(wire::proofs::numbers::Names::unlawful_named))]
pub fn set_periodic(clock: Clock, dividers: Dividers) -> Answer<Clock, ()>
    ensures { result ≡ set_periodic clock dividers }
{
    match LawfulClock::of(clock).and_then(|_| kept_periodic(dividers)) {
        Ok(periodic) => Answer::done(Clock { periodic, ..clock }, ()),
        Err(refusal) => Answer::refused(clock, refusal),
    }
}
