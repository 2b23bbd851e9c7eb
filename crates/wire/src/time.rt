// Ticks and milliseconds: two units that no sum may take for one another.
ghost use Rattle.std.specs.Prelude.{◌≡◌};
ghost use Rattle.wire.specs.Time.{ticks_of, tick_at};

// The ticks of a day: a tick of day is below it.
pub const TICKS_OF_DAY: u64 = 864_000_000_000;

// The ticks of a second.
pub const TICKS_OF_SECOND: u64 = 10_000_000;

// A span or an instant in ticks of 100 ns.
#[derive(Clone, Copy, Debug, PartialEq, Eq, PartialOrd, Ord)]
pub struct Ticks {
    pub ticks: u64,
}

// A span or an instant in milliseconds.
#[derive(Clone, Copy, Debug, PartialEq, Eq, PartialOrd, Ord)]
pub struct Milliseconds {
    pub ms: u32,
}

// The first tick of a millisecond.
impl From<Milliseconds> for Ticks {
    ghost from_gives = { λ t ticks. ticks ≡ ticks_of t };

    fn from(t: Milliseconds) -> Ticks {
        Ticks {
            ticks: u64::from(t.ms) * 10_000,
        }
    }
}

// The tick of day of a time of day. The fraction of the second is in ticks.
#[tactic(auto, unfolding(crate::specs::Time::tick_at))]
pub fn tick_at(hour: u16, minute: u16, second: u16, fraction: u32) -> Ticks
    ensures { result.ticks ≡ tick_at hour minute second fraction }
{
    let seconds = (u64::from(hour) * 60 + u64::from(minute)) * 60 + u64::from(second);
    Ticks {
        ticks: seconds * TICKS_OF_SECOND + u64::from(fraction),
    }
}
