// The clock, as one value: what decides which tick anything falls on, and nothing else.
use crate::time::Time;
use wire::time::Milliseconds;

// When the strobe falls: never; each day at a millisecond of the day; each second at a millisecond of the second.
#[derive(Clone, Copy, Debug, PartialEq, Eq)]
pub enum Strobe {
    Off,
    Daily(Milliseconds),
    EachSecond(Milliseconds),
}

// The periodic output: off, or two dividers and the ticks gone since it last fell.
#[derive(Clone, Copy, Debug, PartialEq, Eq)]
pub enum Periodic {
    Off,
    Every { n1: u16, n2: u16, count: u32 },
}

#[derive(Clone, Copy, Debug, PartialEq, Eq)]
pub struct Clock {
    pub time: Time,
    pub strobe: Strobe,
    pub periodic: Periodic,
}
