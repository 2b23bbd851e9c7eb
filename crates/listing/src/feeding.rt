// Feeding an input part by part: each piece to FIFO of its own fresh card, and then 0x80 to ACK. What is not at its end is held in a card's queue.
ghost use Rattle.std.specs.Prelude.{◌≡◌, true, [], ◌≤◌, length};
ghost use Rattle.wire.specs.Numbers.{number_of};
ghost use Rattle.card.specs.Registers.{write_register};
ghost use Rattle.card.specs.Reset.{fresh_card};
ghost use Rattle.laws.specs.Calls.{fed};
ghost use Rattle.listing.specs.Listing.{goes_on, bench_of, end_of, next_end, Held, Refilled, Begins, Lists, ListsHeld, FeedsWhole, Feeds, Feeding, Finishing};

use crate::lines::Numeral;
use card::blocks::write_block;
use card::card::Card;
use card::registers::write_register;
use card::reset::fresh_card;
use parts::queue::{Queue, empty_queue};
use wire::numbers::number_of;

// The number of the first piece.
const FIRST_NUMBER: u64 = 1;

// The bytes held of a piece that is not at its end, as a card's queue, and the piece's number. No other crate can reach them, so no bench is handed in that
// no call here has left.
#[derive(Clone, Copy)]
pub struct Bench {
    queue: Queue,
    number: u64,
}

// What feeding answers: the bench afterwards, the bytes taken, and the bytes written to the row.
#[derive(Clone, Copy)]
pub struct Fed {
    pub bench: Bench,
    pub taken: usize,
    pub written: usize,
}

// How far listing came: the bytes taken, the next number, and the place behind the lines.
#[derive(Clone, Copy)]
pub(crate) struct Reached {
    pub taken: usize,
    pub number: u64,
    pub written: usize,
}

// The bench before any input.
pub fn start() -> Bench
    ensures { result ≡ bench_of [] 1 }
{
    Bench {
        queue: empty_queue(),
        number: FIRST_NUMBER,
    }
}

// The card when bytes were written to FIFO.
fn hold(card: Card, bytes: &[u8]) -> Card
    ensures { Held card bytes.now result }
{
    write_block(card, bytes).card
}

// What writing 0x80 to ACK answers, of a card that a piece was written to.
fn answer_of(fresh: Card, piece: &[u8]) -> u8
    ensures { result ≡ number_of (write_register (fed fresh piece.now) 12 0x80).outcome }
{
    number_of(&write_register(hold(fresh, piece), 12, 0x80).outcome)
}

// A fresh card with the bytes of a queue written to it.
fn refill(queue: Queue) -> Card
    requires { queue.fill ≤ 40 }
    ensures { Refilled queue result }
{
    hold(fresh_card(), &queue.bytes[..queue.fill])
}

// How many bytes at an input's front end the piece of which so many are held, if it ends there: up to the first 0x17, or to the 41st byte.
#[tactic(auto, using(crate::proofs::feeding::Ends::found_none))]
fn end_of(held: usize, input: &[u8]) -> Option<usize>
    requires { held ≤ 40 }
    ensures { result ≡ end_of held input.now }
{
    let front = &input[..input.len().min(41 - held)];
    match front.iter().position(|&b| b == 0x17) {
        Some(i) => Some(i + 1),
        None if held + front.len() == 41 => Some(front.len()),
        None => None,
    }
}

// Whether there is a number for one more piece, and room for its line.
#[tactic(auto, unfolding(crate::specs::Listing::goes_on))]
fn goes_on(number: u64, room: usize) -> bool
    ensures { result ≡ goes_on number room }
{
    number < u64::MAX && 25 <= room
}

// How many bytes the next piece has, where none is begun, if it ends in the input and there are a number and room for its line.
#[tactic(auto, unfolding(crate::specs::Listing::next_end))]
fn next_end(input: &[u8], number: u64, room: usize) -> Option<usize>
    ensures { result ≡ next_end number room input.now }
{
    if goes_on(number, room) {
        end_of(0, input)
    } else {
        None
    }
}

// Puts the line of the piece at an input's front, which has so many bytes, and those of the pieces behind it. The fresh card is handed in, so that no piece makes
// its own.
fn list(
    fresh: Card,
    input: &[u8],
    front: Option<usize>,
    number: u64,
    row: &mut [u8],
    at: usize,
) -> Reached
    requires { (fresh ≡ fresh_card) × Begins input.now front number row.old at }
    ensures { Lists input.now front number row.old at row.new result }
{
    let mut numeral = Numeral::of(number);
    let mut number = number;
    let mut written = at;
    let mut taken = 0;
    let mut next = front;
    // Each step is as long as the piece that it finds, so no iterator gives the pieces.
    while let Some(n) = next {
        let end = taken + n;
        let answer = answer_of(fresh, &input[taken..end]);
        written = numeral.put_line(answer, row, written);
        numeral.count_up();
        number += 1;
        taken = end;
        next = next_end(&input[taken..], number, row.len() - written);
    }
    Reached {
        taken,
        number,
        written,
    }
}

// The answer of feeding, where a card holds the bytes of the piece that is not at its end.
fn stop(card: Card, reached: Reached) -> Fed
    ensures { result ≡ record { bench = record { queue = card.queue; number = reached.number }; taken = reached.taken; written = reached.written } }
{
    let Reached {
        taken,
        number,
        written,
    } = reached;
    Fed {
        bench: Bench {
            queue: card.queue,
            number,
        },
        taken,
        written,
    }
}

// Feeding behind a piece's end: the pieces that end in the input are listed, and the rest is held if its line could be put.
fn feed_whole(number: u64, input: &[u8], row: &mut [u8], at: usize) -> Fed
    requires { at ≤ length row.old }
    ensures { FeedsWhole number input.now row.old at row.new result }
{
    let fresh = fresh_card();
    let front = next_end(input, number, row.len() - at);
    let listed = list(fresh, input, front, number, row, at);
    if !goes_on(listed.number, row.len() - listed.written) {
        return stop(fresh, listed);
    }
    let card = hold(fresh, &input[listed.taken..]);
    stop(
        card,
        Reached {
            taken: input.len(),
            ..listed
        },
    )
}

// Puts the line of the bytes that a queue holds, as one piece, if there are any.
fn list_held(queue: Queue, number: u64, row: &mut [u8]) -> Reached
    requires { (queue.fill ≤ 64) × (goes_on number (length row.old) ≡ true) }
    ensures { ListsHeld queue number row.old row.new result }
{
    let front = (0 < queue.fill).then_some(queue.fill);
    list(
        fresh_card(),
        &queue.bytes[..queue.fill],
        front,
        number,
        row,
        0,
    )
}

// Feeding, of a bench that holds no more than a piece can.
fn feed_held(bench: Bench, input: &[u8], row: &mut [u8]) -> Fed
    requires { bench.queue.fill ≤ 40 }
    ensures { Feeds bench input.now row.old row.new result }
{
    let number = bench.number;
    let card = refill(bench.queue);
    if !goes_on(number, row.len()) {
        return stop(
            card,
            Reached {
                taken: 0,
                number,
                written: 0,
            },
        );
    }
    let Some(n) = end_of(bench.queue.fill, input) else {
        let card = hold(card, input);
        return stop(
            card,
            Reached {
                taken: input.len(),
                number,
                written: 0,
            },
        );
    };
    let card = hold(card, &input[..n]);
    let listed = list_held(card.queue, number, row);
    let fed = feed_whole(listed.number, &input[n..], row, listed.written);
    Fed {
        taken: n + fed.taken,
        ..fed
    }
}

// Takes an input's bytes, and puts the line of each piece that they finish at the front of the row, as long as there is room for a line.
pub fn feed(bench: Bench, input: &[u8], row: &mut [u8]) -> Fed
    ensures { Feeding bench input.now row.old row.new result }
{
    if 40 < bench.queue.fill {
        return Fed {
            bench,
            taken: 0,
            written: 0,
        };
    }
    feed_held(bench, input, row)
}

// Puts the line of the last rest, if there is one, at the front of the row. Answers the bytes written.
#[tactic(auto, using(crate::proofs::feeding::Whole::last_none, crate::proofs::feeding::Whole::last_long, crate::proofs::feeding::Whole::last_off))]
pub fn finish(bench: Bench, row: &mut [u8]) -> usize
    ensures { Finishing bench row.old row.new result }
{
    if 40 < bench.queue.fill || !goes_on(bench.number, row.len()) {
        return 0;
    }
    list_held(bench.queue, bench.number, row).written
}
