// Strobe, periodic, second: the next fall of each, counted in ticks from the wait's start.
ghost use Rattle.std.specs.Prelude.{◌≡◌, ◌*◌, ◌≤◌, ◌<◌};
ghost use Rattle.clock.specs.Falling.{periodic_falls};
ghost use Rattle.clock.specs.Sources.{Gap, Rhythm, Ready, second_on, strobe_on};

use crate::clock::{Periodic, Strobe};
use crate::lawful::LawfulClock;
use wire::time::{TICKS_OF_DAY, TICKS_OF_SECOND, Ticks};

// The ticks from each fall of the periodic output to the one after.
pub(crate) fn period_of(n1: u16, n2: u16) -> u64
    ensures { (result ≡ n1 * n2) × (result ≤ 4294836225) }
{
    u64::from(n1) * u64::from(n2)
}

// A source: the tick of its next fall, and the ticks from each fall to the one after.
#[derive(Clone, Copy)]
pub(crate) struct Source {
    pub next: u64,
    pub period: u64,
}

// The three sources, each by its name and not in a row of three: a record weighs each differently, and what is proved of each is another.
#[derive(Clone, Copy)]
pub(crate) struct Sources {
    pub second: Source,
    pub strobe: Source,
    pub periodic: Source,
}

impl Source {
    // One that is off: its next fall is on a tick that no window reaches, since none is above a day. With None instead each tick would take one branch more for each source.
    const OFF: Source = Source {
        next: TICKS_OF_DAY + 1,
        period: TICKS_OF_DAY,
    };

    // One that falls on the numbers with the remainder r by its period: the distance from x to the next of them above it.
    #[tactic(auto, using(crate::proofs::falling::Laws::gap_low, crate::proofs::falling::Laws::gap_high))]
    fn above(x: u64, period: u64, r: u64) -> Source
        requires { (r < period) × (period ≤ 864000000000) }
        ensures { Gap x period r result.next × (result.period ≡ period) }
    {
        let m = x % period;
        Source {
            next: if m < r { r - m } else { period - m + r },
            period,
        }
    }
}

impl LawfulClock {
    // The second from now on.
    fn second(self) -> Source
        ensures { Rhythm (second_on self.clock.time) 0 result }
    {
        Source::above(self.clock.time.tick.ticks, TICKS_OF_SECOND, 0)
    }

    // The strobe from now on.
    fn strobe(self) -> Source
        ensures { Rhythm (strobe_on self.clock.strobe self.clock.time) 0 result }
    {
        let tick = self.clock.time.tick.ticks;
        match self.clock.strobe {
            Strobe::Off => Source::OFF,
            Strobe::Daily(ms) => Source::above(tick, TICKS_OF_DAY, Ticks::from(ms).ticks),
            Strobe::EachSecond(ms) => Source::above(tick, TICKS_OF_SECOND, Ticks::from(ms).ticks),
        }
    }

    // The periodic output from now on.
    fn periodic(self) -> Source
        ensures { Rhythm (periodic_falls self.clock.periodic) 0 result }
    {
        match self.clock.periodic {
            Periodic::Off => Source::OFF,
            Periodic::Every { n1, n2, count } => Source::above(
                u64::from(count),
                period_of(n1, n2),
                0,
            ),
        }
    }

    // The three of them.
    pub(crate) fn sources(self) -> Sources
        ensures { Ready self.clock 0 result }
    {
        Sources {
            second: self.second(),
            strobe: self.strobe(),
            periodic: self.periodic(),
        }
    }
}
