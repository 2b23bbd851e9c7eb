// The input queue.
ghost use Rattle.std.specs.Prelude.{◌≡◌, ◌≤◌, length, drop, sum};
ghost use Rattle.wire.specs.Digits.{below};
ghost use Rattle.parts.specs.Queues.{empty_queue, queue_lawful};

// Its first `fill` bytes, with zeros behind them: an array, since a card has fixed memory.
#[derive(Clone, Copy, Debug, PartialEq, Eq)]
pub struct Queue {
    pub bytes: [u8; 64],
    pub fill: usize,
}

pub fn empty_queue() -> Queue
    ensures { result ≡ empty_queue }
{
    Queue {
        bytes: [0; 64],
        fill: 0,
    }
}

// What the bytes of a queue add up to.
fn sum_of(bytes: &[u8]) -> u32
    requires { length bytes.now ≤ 64 }
    ensures { result ≡ sum bytes.now }
{
    bytes.iter().map(|&b| u32::from(b)).sum()
}

// Only zeros from a place on: all bytes add up to what those before it do. So the bytes are taken many at a time, with no way out before the end; one
// at each byte takes half as long again.
#[tactic(auto, using(crate::proofs::queue::Laws::zeros_behind))]
fn zeros_from(bytes: &[u8], from: usize) -> bool
    requires { (length bytes.now ≤ 64) × (from ≤ length bytes.now) }
    ensures { result ≡ below 1 (drop from bytes.now) }
{
    sum_of(bytes) == sum_of(&bytes[..from])
}

// Whether a queue is lawful: no more than 64 bytes, and zeros behind them.
#[tactic(auto, unfolding(crate::specs::Queues::queue_lawful))]
pub fn queue_fits(q: Queue) -> bool
    ensures { result ≡ queue_lawful q }
{
    q.fill <= 64 && zeros_from(&q.bytes, q.fill)
}
