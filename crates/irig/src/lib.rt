// Frames of IRIG B in the DC level form: written for a card's time, read, and found in a stream that arrives in rows cut anywhere.
//
// What is proved: every call does what its definition in specs/ says; a frame that was written reads as the day and the whole seconds of the time it was written for, and no
// other frame reads as that; and any run of calls from a fresh record finds just the frames of the elements that it took, in their order and at their places.
#![tactic(auto)]

pub mod reading;
mod search;
pub mod stream;
mod table;
pub mod writing;
