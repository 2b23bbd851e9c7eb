// A block into the queue: the bytes of a row, written to FIFO by one call.
ghost use Rattle.std.specs.Prelude.{◌≡◌, ◌+◌, ◌≤◌, length};
ghost use Rattle.std.proofs.Math.Seq.{paste};
ghost use Rattle.card.specs.Blocks.{write_block};

use crate::card::Card;
use crate::lawful::is_lawful;
use wire::numbers::Refusal;

// What writing a block answers: the card afterwards, how many bytes were taken, beside 3 too, and whether some are left over.
#[derive(Clone, Copy)]
pub struct BlockAnswer {
    pub card: Card,
    pub taken: usize,
    pub outcome: Result<(), Refusal>,
}

// Stores the bytes of a row from a place of the queue on. Every other place stays as it was.
fn store_row(bytes: &mut [u8; 64], at: usize, row: &[u8])
    requires { (length bytes.old ≡ 64) × (at + length row.now ≤ 64) }
    ensures { bytes.new ≡ paste bytes.old at row.now (length row.now) }
{
    bytes[at..at + row.len()].copy_from_slice(row);
}

// Writes the bytes of a row to FIFO, as far as there are free places, and says how many were taken. 3 if some are left over: those before them are in, and this
// is the one refusal 3 that leaves a changed card.
pub fn write_block(card: Card, row: &[u8]) -> BlockAnswer
    ensures { result ≡ write_block card row.now }
{
    if !is_lawful(card) {
        return BlockAnswer {
            card,
            taken: 0,
            outcome: Err(Refusal::Unlawful),
        };
    }
    let fill = card.queue.fill;
    let free = 64 - fill;
    let (taken, outcome) = if free < row.len() {
        (free, Err(Refusal::QueueFull))
    } else {
        (row.len(), Ok(()))
    };
    let mut c = card;
    store_row(&mut c.queue.bytes, fill, &row[..taken]);
    c.queue.fill = fill + taken;
    BlockAnswer {
        card: c,
        taken,
        outcome,
    }
}
