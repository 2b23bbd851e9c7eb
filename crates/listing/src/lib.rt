// The bench's listing: an input cut into pieces, and the answer of each piece's own fresh card, through the card's registers.
//
// What is proved: whatever the parts in which an input comes, what is written is the header and the lines of its pieces, each with its number and its answer.
#![tactic(auto)]

pub mod feeding;
mod lines;
