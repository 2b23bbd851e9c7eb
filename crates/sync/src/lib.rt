// The SYNC board of source document 004, in steps of 1 µs: its switches, its one register and its three interrupts.
//
// What is proved: every call does what its definition in specs/ says, for every record that may be handed in; a record is lawful exactly if some calls leave it; and a run
// of quiet microseconds, however long, is as many single steps.
#![tactic(auto)]

pub mod board;
mod counting;
pub mod interrupts;
pub mod lawful;
pub mod register;
pub mod stepping;
pub mod switches;
