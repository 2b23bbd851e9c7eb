// The search for two markers in a row.
ghost use Rattle.std.specs.Prelude.{◌≡◌};
ghost use Rattle.irig.specs.Streams.{searched};

use crate::table::MARKER;

// What a search comes to: behind how many elements it found the second of two markers; or, behind all of them, whether the last is a marker.
#[derive(Clone, Copy)]
pub(crate) enum Searched {
    Found(usize),
    Over(bool),
}

// The search in a row, behind a marker or not.
#[tactic(auto, using(crate::proofs::search::Laws::searches))]
pub(crate) fn search(marked: bool, row: &[u8]) -> Searched
    ensures { result ≡ searched marked row.now }
{
    let mut before = marked;
    for (i, &e) in row.iter().enumerate() {
        let marker = e == MARKER;
        if before & marker {
            return Searched::Found(i + 1);
        }
        before = marker;
    }
    Searched::Over(before)
}
