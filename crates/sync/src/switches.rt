// Setting the switches.
ghost use Rattle.std.specs.Prelude.{◌≡◌};
ghost use Rattle.sync.specs.Switches.{set_switches};

use crate::board::{Board, start, switches_fit};
use crate::lawful::LawfulBoard;
use wire::numbers::{Answer, Refusal};

// Sets both switches and starts the board anew: 20 for RC1 outside 0 to 3 or a base that is not a multiple of 16 below 256.
#[tactic(auto, using(wire::proofs::numbers::Names::unlawful_named, wire::proofs::numbers::Names::outside_switch_named, crate::proofs::lawful::Laws::rc1_most, crate::proofs::lawful::Laws::base_most))]
pub fn set_switches(board: Board, rc1: u32, base: u32) -> Answer<Board, ()>
    ensures { result ≡ set_switches board rc1 base }
{
    match LawfulBoard::of(board) {
        Ok(_) if switches_fit(rc1, base) => Answer::done(start(rc1 as u8, base as u8), ()),
        Ok(_) => Answer::refused(board, Refusal::OutsideSwitch),
        Err(refusal) => Answer::refused(board, refusal),
    }
}
