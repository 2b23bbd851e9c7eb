// Steps of 1 µs.
ghost use Rattle.std.specs.Prelude.{◌≡◌, true, ◌||◌, ◌+◌, ◌≤◌, ltb};
ghost use Rattle.sync.specs.Counting.{frequency, count};
ghost use Rattle.sync.specs.Stepping.{held, stepped, quiet_steps, step, run};

use crate::board::Board;
use crate::counting::frequency_of;
use crate::lawful::LawfulBoard;
use wire::numbers::Answer;

// A pulse is in time from EARLIEST to LATEST, in microseconds after the one before.
const EARLIEST: u32 = 992_000;

const LATEST: u32 = 1_008_000;

// The microsecond on which a missing pulse is an error. Nothing later is told apart from it.
pub(crate) const LATE: u32 = 1_008_001;

impl LawfulBoard {
    // The microseconds since the last pulse, so many later, held at 1,008,001.
    #[tactic(auto, using(crate::proofs::lawful::Laws::elapsed_within, crate::proofs::stepping::Laws::held_sum))]
    fn elapsed_after(self, n: u64) -> u32
        ensures { result ≡ held (self.board.elapsed + n) }
    {
        let left = LATE - self.board.elapsed;
        self.board.elapsed + n.min(u64::from(left)) as u32
    }

    // Whether the next count has come by a later microsecond.
    #[tactic(auto, using(crate::proofs::counting::Laws::next_below, crate::proofs::counting::Laws::next_last, crate::proofs::counting::Laws::count_small, crate::proofs::counting::Laws::scaled_most, crate::proofs::counting::Laws::frequency_above))]
    fn counts_by(self, to: u32) -> bool
        requires { (self.board.elapsed ≤ to) × (to ≤ 1008001) }
        ensures { result ≡ ltb (count (frequency self.board.rc1) self.board.elapsed) (count (frequency self.board.rc1) to) }
    {
        let f = frequency_of(self.board.rc1);
        let next = self.count() + 1;
        next < f && next * 1_000_000 <= to * f
    }

    // The board after so many quiet microseconds, however many. Nothing is counted if FAST waits already.
    #[tactic(auto, using(crate::proofs::stepping::Laws::quiet_is, crate::proofs::stepping::Laws::quiet_unseen, crate::proofs::stepping::Laws::held_least, crate::proofs::stepping::Laws::held_most, crate::proofs::lawful::Laws::elapsed_within))]
    fn quiet_steps(self, n: u64) -> Board
        ensures { result ≡ quiet_steps n self.board }
    {
        let board = self.board;
        if !board.seen {
            return board;
        }
        let elapsed = self.elapsed_after(n);
        let missed = board.elapsed < LATE && elapsed == LATE;
        Board {
            elapsed,
            bit: board.bit || missed,
            err: board.err || missed,
            fast: board.fast || self.counts_by(elapsed),
            ..board
        }
    }

    // The board after a microsecond with a pulse.
    #[tactic(auto, using(crate::proofs::lawful::Laws::elapsed_within), unfolding(crate::specs::Stepping::stepped, crate::specs::Stepping::in_time, crate::specs::Stepping::errs))]
    fn pulsed(self) -> Board
        ensures { result ≡ stepped self.board true }
    {
        let board = self.board;
        let at = board.elapsed + 1;
        let in_time = !board.seen || matches!(at, EARLIEST..=LATEST);
        let error = board.seen && (at < EARLIEST || at == LATE);
        Board {
            seen: true,
            elapsed: 0,
            bit: !in_time && (board.bit || error),
            err: board.err || error,
            slo: true,
            fast: true,
            ..board
        }
    }
}

// One step, with or without a pulse.
#[tactic(auto, using(wire::proofs::numbers::Names::unlawful_named), unfolding(crate::specs::Stepping::quiet_steps))]
pub fn step(board: Board, pulse: bool) -> Answer<Board, ()>
    ensures { result ≡ step board pulse }
{
    match LawfulBoard::of(board) {
        Ok(lawful) if pulse => Answer::done(lawful.pulsed(), ()),
        Ok(lawful) => Answer::done(lawful.quiet_steps(1), ()),
        Err(refusal) => Answer::refused(board, refusal),
    }
}

// A run of quiet steps, in the time of one.
#[tactic(auto, using(wire::proofs::numbers::Names::unlawful_named))]
pub fn run(board: Board, n: u64) -> Answer<Board, ()>
    ensures { result ≡ run board n }
{
    match LawfulBoard::of(board) {
        Ok(lawful) => Answer::done(lawful.quiet_steps(n), ()),
        Err(refusal) => Answer::refused(board, refusal),
    }
}
