// The board's one register.
ghost use Rattle.std.specs.Prelude.{◌≡◌};
ghost use Rattle.sync.specs.Register.{shown, read_register};

use crate::board::Board;
use crate::lawful::LawfulBoard;
use wire::numbers::Refusal;

const ERR_BIT: u16 = 32_768;

impl LawfulBoard {
    // The count, and bit 15 for ERR.
    #[tactic(auto, using(crate::proofs::counting::Laws::count_small), unfolding(crate::specs::Register::shown))]
    fn shown(self) -> u16
        ensures { result ≡ shown self.board }
    {
        let bit = if self.board.bit { ERR_BIT } else { 0 };
        bit + self.count() as u16
    }
}

// Reads the register: the count, and bit 15 for ERR. It takes nothing and clears nothing.
#[tactic(auto, using(wire::proofs::numbers::Names::unlawful_named))]
pub fn read_register(board: Board) -> Result<u16, Refusal>
    ensures { result ≡ read_register board }
{
    Ok(LawfulBoard::of(board)?.shown())
}
