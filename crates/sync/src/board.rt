// The board, and how it starts.
ghost use Rattle.std.specs.Prelude.{◌≡◌};
ghost use Rattle.sync.specs.Boards.{switches_fit, started, fresh_board};

// Its switches; whether a pulse was ever seen, and the microseconds since the last one, held at 1,008,001; bit 15 of its register; and which interrupts wait.
#[derive(Clone, Copy, Debug, PartialEq, Eq)]
pub struct Board {
    pub rc1: u8,
    pub base: u8,
    // Beside the microseconds, not within them: a record of any kind may be handed in, and its definition has both.
    pub seen: bool,
    pub elapsed: u32,
    pub bit: bool,
    pub err: bool,
    pub slo: bool,
    pub fast: bool,
}

// RC1 0 to 3, and a base that is a multiple of 16 below 256.
#[tactic(auto, unfolding(crate::specs::Boards::switches_fit))]
pub(crate) fn switches_fit(rc1: u32, base: u32) -> bool
    ensures { result ≡ switches_fit rc1 base }
{
    rc1 <= 3 && base <= 255 && base % 16 == 0
}

// A board before its first pulse.
pub(crate) fn start(rc1: u8, base: u8) -> Board
    ensures { result ≡ started rc1 base }
{
    Board {
        rc1,
        base,
        seen: false,
        elapsed: 0,
        bit: true,
        err: false,
        slo: false,
        fast: false,
    }
}

// A board as it comes: RC1 1, base 0.
pub fn fresh_board() -> Board
    ensures { result ≡ fresh_board }
{
    start(1, 0)
}
