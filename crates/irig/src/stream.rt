// Frames in a stream that arrives in rows cut anywhere.
ghost use Rattle.std.specs.Prelude.{◌≡◌, false, ◌+◌, ◌-◌, ◌≤◌, ◌<◌, length, get_or, drop};
ghost use Rattle.std.proofs.Math.Seq.{paste};
ghost use Rattle.wire.specs.Digits.{below};
ghost use Rattle.irig.specs.Streams.{searching as searches, fresh_stream, lawful, one_by_one, row_taken, behind, done, take_row, first_held};

use crate::reading::read_frame;
use crate::search::{Searched, search};
use crate::table::{ELEMENTS, MARKER};
use wire::numbers::{Answer, Refusal};
use wire::words::Moment;

// How many elements a frame has behind its element 0, and so the number of its last.
const BEHIND: usize = ELEMENTS - 1;

// What has come of a frame, with zeros behind it; and, while none has begun, whether the element before was a marker.
// An array and how much of it is held: the memory is fixed, and a record of any kind may be handed in.
#[derive(Clone, Copy)]
pub struct Stream {
    pub elements: [u8; ELEMENTS],
    pub held: usize,
    pub marked: bool,
}

// What taking a row gives: how many elements were taken, and what the frame that they finished is read as, if they finished one.
#[derive(Clone, Copy)]
pub struct RowTaken {
    pub taken: usize,
    pub finished: Option<Result<Moment, Refusal>>,
}

// The answer of a call that took so many elements, with what they finished.
fn took(
    after: Stream,
    taken: usize,
    finished: Option<Result<Moment, Refusal>>,
) -> Answer<Stream, RowTaken>
    ensures { result ≡ done (row_taken after taken finished) }
{
    Answer::done(after, RowTaken { taken, finished })
}

// A record that searches, the element before being a marker or not.
fn searching(marked: bool) -> Stream
    ensures { result ≡ searches marked }
{
    Stream {
        elements: [0; ELEMENTS],
        held: 0,
        marked,
    }
}

// A stream before its first element.
pub fn fresh_stream() -> Stream
    ensures { result ≡ fresh_stream }
{
    searching(false)
}

// Only zeros. They are added up and not asked one by one, so there is no way out before the last.
fn only_zeros(elements: &[u8]) -> bool
    requires { length elements.now ≤ 100 }
    ensures { result ≡ below 1 elements.now }
{
    elements.iter().map(|&e| u32::from(e)).sum::<u32>() == 0
}

// Whether some calls leave this record. Asked first in `take_row`.
#[tactic(auto, unfolding(crate::specs::Streams::lawful))]
pub fn is_lawful(stream: Stream) -> bool
    ensures { result ≡ lawful stream }
{
    match stream.held {
        0 => only_zeros(&stream.elements),
        1..ELEMENTS => {
            !stream.marked
                && stream.elements[0] == MARKER
                && only_zeros(&stream.elements[stream.held..])
        }
        _ => false,
    }
}

// Stores elements from a place on. Every other place stays as it was.
fn store(elements: &mut [u8; ELEMENTS], at: usize, part: &[u8])
    requires { (length elements.old ≡ 100) × (at + length part.now ≤ 100) }
    ensures { elements.new ≡ paste elements.old at part.now (length part.now) }
{
    elements[at..at + part.len()].copy_from_slice(part);
}

// Takes what a row has from a place on for the frame that has begun, of which this much is held.
#[tactic(auto, using(crate::proofs::stream::Laws::holds))]
fn hold(begun: [u8; ELEMENTS], held: usize, row: &[u8], from: usize) -> Answer<Stream, RowTaken>
    requires { (0 < held) × (held < 100) × (from ≤ length row.now) }
    ensures { result ≡ done (behind from (one_by_one (record { elements = begun; held = held; marked = false }) (drop from row.now))) }
{
    let mut elements = begun;
    let rest = &row[from..];
    let missing = ELEMENTS - held;
    if rest.len() < missing {
        store(&mut elements, held, rest);
        let stream = Stream {
            elements,
            held: held + rest.len(),
            marked: false,
        };
        return took(stream, row.len(), None);
    }
    store(&mut elements, held, &rest[..missing]);
    let time = read_frame(&elements);
    took(
        searching(elements[BEHIND] == MARKER),
        from + missing,
        Some(time),
    )
}

// Takes what a row has of the frame whose element 0 stands right before a place. A frame that is whole in the row is read where it stands; what comes of a shorter one is held.
#[tactic(auto, using(crate::proofs::stream::Laws::begin_whole))]
fn begin(row: &[u8], from: usize) -> Answer<Stream, RowTaken>
    requires { (0 < from) × (from ≤ length row.now) × (get_or row.now (from - 1) 0 ≡ 2) }
    ensures { result ≡ done (behind from (one_by_one first_held (drop from row.now))) }
{
    if row.len() - from < BEHIND {
        let mut begun = [0; ELEMENTS];
        begun[0] = MARKER;
        return hold(begun, 1, row, from);
    }
    let time = read_frame(&row[from - 1..from + BEHIND]);
    took(
        searching(row[from + BEHIND - 1] == MARKER),
        from + BEHIND,
        Some(time),
    )
}

// Takes the elements of a row up to and including the last of a frame, or all of them: the record afterwards, how many were taken, and the frame, if one was finished,
// with its time or why it has none. 18 for a record that no calls leave, and then it comes back as it was and nothing is taken.
#[tactic(auto, using(crate::proofs::stream::Laws::takes))]
pub fn take_row(stream: Stream, row: &[u8]) -> Answer<Stream, RowTaken>
    ensures { result ≡ take_row stream row.now }
{
    if !is_lawful(stream) {
        return Answer::refused(stream, Refusal::Unlawful);
    }
    if stream.held != 0 {
        return hold(stream.elements, stream.held, row, 0);
    }
    match search(stream.marked, row) {
        Searched::Found(from) => begin(row, from),
        Searched::Over(marked) => took(searching(marked), row.len(), None),
    }
}
