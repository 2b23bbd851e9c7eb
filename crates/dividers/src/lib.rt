// The nearest sample period: the pair of dividers n1 and n2 whose period, 100 × n1 × n2 ns, is at the least distance from a wanted one.
//
// What is proved: of all lawful pairs none is nearer than the one given back, none as near has a smaller product, and none of the same product a smaller n1; there is one
// such pair for every wanted period, and no other.
#![tactic(auto)]

pub mod nearest;
pub mod pairs;
