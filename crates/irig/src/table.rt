// The table of the frame, for both ways: by how many bits each of its hundred elements is shifted in one number of 64 bits.
ghost use Rattle.std.specs.Prelude.{◌≡◌, map};
ghost use Rattle.irig.specs.Table.{table, shift_of};

// How many elements a frame has.
pub(crate) const ELEMENTS: usize = 100;

// A marker.
pub(crate) const MARKER: u8 = 2;

// The shift of an element that does not stand in the number: a marker's. A table of bytes stays half as large as one of options.
pub(crate) const NO_SHIFT: u8 = 64;

// The table, read in place.
pub(crate) fn shifts() -> &'static [u8; 100]
    ensures { result.now ≡ map shift_of table }
{
    &SHIFTS
}

// The nine digits have four bits each, from bit 0 on; the binary seconds follow from bit 36 on, and from bit 53 on what the spare elements add up to.
static SHIFTS: [u8; 100] = [
    64, 0, 1, 2, 3, 53, 4, 5, 6, 64, 8, 9, 10, 11, 53, 12, 13, 14, 53, 64, 16, 17, 18, 19, 53, 20,
    21, 53, 53, 64, 24, 25, 26, 27, 53, 28, 29, 30, 31, 64, 32, 33, 53, 53, 53, 53, 53, 53, 53, 64,
    53, 53, 53, 53, 53, 53, 53, 53, 53, 64, 53, 53, 53, 53, 53, 53, 53, 53, 53, 64, 53, 53, 53, 53,
    53, 53, 53, 53, 53, 64, 36, 37, 38, 39, 40, 41, 42, 43, 44, 64, 45, 46, 47, 48, 49, 50, 51, 52,
    53, 64,
];
