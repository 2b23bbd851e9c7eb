// 18: whether a board is one that calls could have left.
ghost use Rattle.std.specs.Prelude.{◌≡◌, true, false, MatchResult};
ghost use Rattle.wire.specs.declared.numbers.Refusal.TheVariants as Refusal;
ghost use Rattle.sync.specs.Lawful.{unseen_lawful, seen_lawful, lawful};

use crate::board::{Board, switches_fit};
use crate::stepping::LATE;
use wire::numbers::Refusal;

// Before the first pulse: nothing has passed, the bit is set, and nothing waits.
#[tactic(auto, unfolding(crate::specs::Lawful::unseen_lawful))]
fn unseen_fits(b: Board) -> bool
    ensures { result ≡ unseen_lawful b }
{
    b.elapsed == 0 && b.bit && !(b.err || b.slo || b.fast)
}

// After it: SLO waits only with FAST; ERR waits only with SLO until a pulse is missing, and from then on the bit is set.
#[tactic(auto, unfolding(crate::specs::Lawful::seen_lawful))]
fn seen_fits(b: Board) -> bool
    ensures { result ≡ seen_lawful b }
{
    let rest = if b.elapsed < LATE {
        !b.err || b.slo
    } else {
        b.elapsed == LATE && b.bit
    };
    (!b.slo || b.fast) && rest
}

// Whether some calls leave this board.
#[tactic(auto, unfolding(crate::specs::Lawful::lawful))]
pub fn is_lawful(board: Board) -> bool
    ensures { result ≡ lawful board }
{
    let state = if board.seen {
        seen_fits(board)
    } else {
        unseen_fits(board)
    };
    switches_fit(u32::from(board.rc1), u32::from(board.base)) && state
}

// A board that some calls leave. Each call on a board asks for one first.
#[derive(Clone, Copy)]
pub(crate) struct LawfulBoard {
    pub(crate) board: Board,
    pub ghost lawful: { lawful board ≡ true },
}

impl LawfulBoard {
    // 18 for any other board.
    pub(crate) fn of(board: Board) -> Result<Self, Refusal>
        ensures { MatchResult result (λ l. l.board ≡ board) (λ r. (r ≡ Refusal.Unlawful) × (lawful board ≡ false)) }
    {
        if is_lawful(board) {
            Ok(LawfulBoard { board })
        } else {
            Err(Refusal::Unlawful)
        }
    }
}
