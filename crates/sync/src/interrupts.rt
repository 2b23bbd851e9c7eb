// The board's three interrupts.
ghost use Rattle.std.specs.Prelude.{◌≡◌};
ghost use Rattle.sync.specs.Interrupts.{next, next_taken, taken, take_interrupt};

use crate::board::Board;
use crate::lawful::LawfulBoard;
use wire::numbers::Answer;

impl LawfulBoard {
    // The vector of the first that waits of ERR, SLO and FAST. None says that none waits: vector 0 is one too.
    #[tactic(auto, using(crate::proofs::lawful::Laws::vectors_fit), unfolding(crate::specs::Interrupts::next, crate::specs::Interrupts::next_taken))]
    fn take(self) -> Answer<Board, Option<u8>>
        ensures { result ≡ taken (next_taken self.board) (next self.board) }
    {
        let mut board = self.board;
        let vector = if board.err {
            board.err = false;
            Some(board.base + 2)
        } else if board.slo {
            board.slo = false;
            Some(board.base + 1)
        } else if board.fast {
            board.fast = false;
            Some(board.base)
        } else {
            None
        };
        Answer::done(board, vector)
    }
}

// Takes the next interrupt, and gives its vector: ERR before SLO before FAST.
#[tactic(auto, using(wire::proofs::numbers::Names::unlawful_named))]
pub fn take_interrupt(board: Board) -> Answer<Board, Option<u8>>
    ensures { result ≡ take_interrupt board }
{
    match LawfulBoard::of(board) {
        Ok(lawful) => lawful.take(),
        Err(refusal) => Answer::refused(board, refusal),
    }
}
