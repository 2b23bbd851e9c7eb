// Cards of any kind: each of a card's parts may break its range.
ghost use Rattle.std.specs.Prelude.{◌≤◌};

use card::card::Card;
use card::registers::write_register;
use card::reset::fresh_card;
use cases::{at, flag_at, number_at, ticks_at};
use clock::clock::{Clock, Periodic, Strobe};
use clock::time::Time;
use parts::event::Event;
use parts::interrupts::Interrupts;
use parts::queue::Queue;
use parts::settings::Settings;
use wire::packets::{ClockSource, Format, Generator, Modulation};
use wire::time::Milliseconds;

// The first number, but at most so many.
pub(crate) fn count_at(text: &[u8], most: usize) -> usize
    ensures { result ≤ most }
{
    most.min((number_at(text, 1) % 1_000) as usize)
}

// The last five of six numbers.
pub(crate) fn five_at(text: &[u8]) -> [u16; 5] {
    [
        at(text, 2),
        at(text, 3),
        at(text, 4),
        at(text, 5),
        at(text, 6),
    ]
}

// The offsets at which something changes, and some between.
pub(crate) fn offset_of(n: u8) -> i32 {
    match n {
        0 => 0,
        1 => 25_000,
        2 => 9_999_999,
        3 => -9_999_999,
        4 => 10_000_000,
        5 => -10_000_000,
        6 => 2_147_483_647,
        7 => -2_000_000_000,
        8 => 9_900,
        9 => -9_900,
        10 => 9_901,
        _ => -9_901,
    }
}

pub(crate) fn format_of(n: u8) -> Format {
    match n {
        0 => Format::A,
        1 => Format::B,
        2 => Format::C,
        3 => Format::N,
        _ => Format::X,
    }
}

pub(crate) fn modulation_of(n: u8) -> Modulation {
    match n {
        1 => Modulation::D,
        _ => Modulation::M,
    }
}

fn clock_of(n: u8) -> ClockSource {
    match n {
        1 => ClockSource::External,
        _ => ClockSource::Internal,
    }
}

fn generator_of(n: u8) -> Generator {
    match n {
        1 => Generator::H,
        _ => Generator::B,
    }
}

fn with_time(card: Card, text: &[u8]) -> Card {
    let time = Time {
        year: at(text, 1),
        day: at(text, 2),
        tick: ticks_at(text, 3),
    };
    Card {
        clock: Clock { time, ..card.clock },
        ..card
    }
}

fn strobe_of(kind: u8, ms: u32) -> Strobe {
    match kind {
        0 => Strobe::Off,
        1 => Strobe::Daily(Milliseconds { ms }),
        _ => Strobe::EachSecond(Milliseconds { ms }),
    }
}

// Strobe and periodic output.
fn with_sources(card: Card, text: &[u8]) -> Card {
    let clock = Clock {
        strobe: strobe_of(at(text, 1), at(text, 2)),
        periodic: Periodic::Every {
            n1: at(text, 3),
            n2: at(text, 4),
            count: at(text, 5),
        },
        ..card.clock
    };
    Card { clock, ..card }
}

fn with_interrupts(card: Card, text: &[u8]) -> Card {
    let interrupts = Interrupts {
        mask: at(text, 1),
        pending: at(text, 2),
        level: at(text, 3),
        vector: at(text, 4),
    };
    Card { interrupts, ..card }
}

// CONTROL and the words of the event latch.
fn with_event(card: Card, text: &[u8]) -> Card {
    let event = Event {
        control: at(text, 1),
        latch: five_at(text),
        ..card.event
    };
    Card { event, ..card }
}

// Whether the event latch is closed, and how many edges it missed.
fn with_missed(card: Card, text: &[u8]) -> Card {
    let event = Event {
        closed: flag_at(text, 1),
        missed: at(text, 2),
        ..card.event
    };
    Card { event, ..card }
}

// The time latch, and done if the first number is 1.
fn with_latch(card: Card, text: &[u8]) -> Card {
    Card {
        time_latch: five_at(text),
        done: flag_at(text, 1),
        ..card
    }
}

fn with_settings(card: Card, text: &[u8]) -> Card {
    let settings = Settings {
        mode: at(text, 1),
        format: format_of(at(text, 2)),
        modulation: modulation_of(at(text, 3)),
        clock: clock_of(at(text, 4)),
        generator: generator_of(at(text, 5)),
        offset: offset_of(at(text, 6)),
    };
    Card { settings, ..card }
}

fn with_jam(card: Card, text: &[u8]) -> Card {
    Card {
        jam: flag_at(text, 1),
        ..card
    }
}

// A queue of so many bytes, all zero but the one at a place.
fn with_queue(card: Card, text: &[u8]) -> Card {
    let mut bytes = [0u8; 64];
    bytes[(number_at(text, 2) % 64) as usize] = at(text, 3);
    let fill = (number_at(text, 1) % 1_000) as usize;
    Card {
        queue: Queue { bytes, fill },
        ..card
    }
}

// The card with so many bytes written to FIFO, 64 at most, one by one.
fn fed(mut card: Card, text: &[u8]) -> Card {
    for i in 0..count_at(text, 64) {
        card = write_register(card, 13, at(text, i + 2)).after;
    }
    card
}

// A fresh card, or the card with another part.
pub(crate) fn changed(call: u8, card: Card, text: &[u8]) -> Card {
    match call {
        b'N' => fresh_card(),
        b'T' => with_time(card, text),
        b'S' => with_sources(card, text),
        b'I' => with_interrupts(card, text),
        b'E' => with_event(card, text),
        b'C' => with_missed(card, text),
        b'L' => with_latch(card, text),
        b'M' => with_settings(card, text),
        b'O' => with_jam(card, text),
        b'F' => fed(card, text),
        _ => with_queue(card, text),
    }
}
