// Time words and packets: the lower layer, which knows nothing of a card.
//
// What is proved: words and packets mean what the page says; what is written reads back as the same thing, and whatever reads is what would be written
// for it, so nothing that reads has a second meaning.
#![tactic(auto)]

pub mod digits;
pub mod numbers;
pub mod packets;
pub mod time;
pub mod words;
