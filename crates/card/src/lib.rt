// The card: registers, queue, interrupts, waiting, reset and saved settings, over the promises of its clock, its other parts, and words and packets alone.
//
// What is proved: every call answers, for every card that may be handed in and every argument, exactly what its definition in specs/ says: done or which
// refusal, its values, the whole card afterwards and every lent row.
#![tactic(auto)]

pub mod blocks;
pub mod card;
pub mod lawful;
mod packets;
pub mod registers;
pub mod reset;
pub mod saved;
pub mod setting;
pub mod waiting;
