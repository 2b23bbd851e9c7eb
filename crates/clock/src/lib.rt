// The clock of a card: its time, strobe and periodic output, and the passing of a window over a lent row. It knows nothing of registers, queues or latches.
//
// What is proved: whatever the clock and the row, a wait answers what its definition in specs/ says: it lists every tick on which something falls, once, in
// order, with exactly its sources, and moves the clock on by the ticks passed; or it refuses by the page's number and changes nothing. The days before a year, as code
// works them out, are those that pass on this clock.
#![tactic(auto)]

pub mod clock;
mod falling;
mod later;
pub mod lawful;
pub mod setting;
pub mod time;
pub mod waiting;
