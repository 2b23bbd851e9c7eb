// Cards to begin with: a plain one with this strobe and these dividers, and a busy one, of which every part is set.
use card::card::Card;
use card::reset::fresh_card;
use clock::clock::{Clock, Periodic, Strobe};
use clock::time::Time;
use parts::event::Event;
use parts::interrupts::Interrupts;
use parts::queue::Queue;
use wire::time::{Milliseconds, Ticks};

// A fresh card at day 45 of the year 2004, so many ticks after 13:07:09, with a strobe and a periodic output.
pub(crate) fn card_with(ticks: u32, strobe: Strobe, periodic: Periodic) -> Card {
    let time = Time {
        year: 2004,
        day: 45,
        tick: Ticks {
            ticks: 472_290_000_000 + u64::from(ticks),
        },
    };
    Card {
        clock: Clock {
            time,
            strobe,
            periodic,
        },
        ..fresh_card()
    }
}

// A queue of four bytes, or empty.
fn queue_of(busy: bool) -> Queue {
    let mut bytes = [0u8; 64];
    if !busy {
        return Queue { bytes, fill: 0 };
    }
    bytes[..4].copy_from_slice(&[1, 71, 45, 48]);
    Queue { bytes, fill: 4 }
}

// A card of which every part is set: a time in both latches, every pending bit but the one never raised, this CONTROL and this vector, and bytes in the queue or none.
pub(crate) fn busy_card(control: u8, vector: u8, queued: bool) -> Card {
    let strobe = Strobe::EachSecond(Milliseconds { ms: 200 });
    let periodic = Periodic::Every {
        n1: 2_000,
        n2: 2_000,
        count: 3_234_567,
    };
    let interrupts = Interrupts {
        mask: 31,
        pending: 15,
        level: 3,
        vector,
    };
    let event = Event {
        control,
        closed: false,
        missed: 0,
        latch: [0, 0x4513, 0x0710, 0x1234, 0x5670],
    };
    Card {
        interrupts,
        event,
        time_latch: [0, 0x4513, 0x0710, 0x1234, 0x5670],
        queue: queue_of(queued),
        ..card_with(11_234_567, strobe, periodic)
    }
}

// Two fresh cards.
pub(crate) fn fresh_pair() -> [Card; 2] {
    [fresh_card(), card_with(0, Strobe::Off, Periodic::Off)]
}

// Two busy ones.
pub(crate) fn busy_pair() -> [Card; 2] {
    [busy_card(1, 64, true), busy_card(1, 66, true)]
}
