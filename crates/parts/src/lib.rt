// The parts of a card beside its clock: queue, event input, settings with their saved form, and interrupt registers. None of them knows of another.
//
// What is proved: each part's ranges are decided as the page has them, and what calls do to one part alone is what its definition in specs/ says; settings that
// are saved are loaded as the same settings.
#![tactic(auto)]

pub mod event;
pub mod interrupts;
mod pending;
pub mod queue;
pub mod saved;
pub mod settings;
