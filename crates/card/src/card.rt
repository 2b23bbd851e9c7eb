// The card, as one value: every call takes it, and gives it back. Its parts are what calls change together; the small ones come first, since a card is copied
// faster so.
use clock::clock::Clock;
use parts::event::Event;
use parts::interrupts::Interrupts;
use parts::queue::Queue;
use parts::settings::Settings;

#[derive(Clone, Copy)]
pub struct Card {
    pub settings: Settings,
    pub jam: bool,
    pub interrupts: Interrupts,
    pub done: bool,
    pub event: Event,
    pub time_latch: [u16; 5],
    pub clock: Clock,
    pub queue: Queue,
}
