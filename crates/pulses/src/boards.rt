// The board's record, with its fields in their order: read from a line, lawful or not, and written out.
use cases::writing::put;
use cases::{at, flag_at};
use std::io;
use sync::board::Board;

pub(crate) fn board_at(text: &[u8]) -> Board {
    Board {
        rc1: at(text, 1),
        base: at(text, 2),
        seen: flag_at(text, 3),
        elapsed: at(text, 4),
        bit: flag_at(text, 5),
        err: flag_at(text, 6),
        slo: flag_at(text, 7),
        fast: flag_at(text, 8),
    }
}

// Writes a board and hands it on.
pub(crate) fn shown(rt: &impl Print, board: Board) -> io::Result<Board> {
    rt.write_all(b" :")?;
    put(rt, board.rc1)?;
    put(rt, board.base)?;
    put(rt, board.seen)?;
    put(rt, board.elapsed)?;
    put(rt, board.bit)?;
    put(rt, board.err)?;
    put(rt, board.slo)?;
    put(rt, board.fast)?;
    Ok(board)
}
