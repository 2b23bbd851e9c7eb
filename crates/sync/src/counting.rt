// The count of the board's frequency since the last pulse.
ghost use Rattle.std.specs.Prelude.{◌≡◌};
ghost use Rattle.sync.specs.Counting.{frequency, count};

use crate::lawful::LawfulBoard;

// The frequency that RC1 selects.
#[tactic(auto, unfolding(crate::specs::Counting::frequency))]
pub(crate) fn frequency_of(rc1: u8) -> u32
    ensures { result ≡ frequency rc1 }
{
    match rc1 {
        0 => 32,
        1 => 64,
        2 => 128,
        _ => 256,
    }
}

impl LawfulBoard {
    // The count at this microsecond after the last pulse.
    #[tactic(auto, using(crate::proofs::counting::Laws::count_is_least, crate::proofs::counting::Laws::scaled_most, crate::proofs::lawful::Laws::elapsed_within, crate::proofs::counting::Laws::frequency_above))]
    pub(crate) fn count(self) -> u32
        ensures { result ≡ count (frequency self.board.rc1) self.board.elapsed }
    {
        let f = frequency_of(self.board.rc1);
        (self.board.elapsed * f / 1_000_000).min(f - 1)
    }
}
