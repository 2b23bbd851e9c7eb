// The elements of a row in a line: a character for each, without spaces, whose code is 48 above the element, from 0 on again behind 255. So 0 to 9 are their digits, and / is 255.
ghost use Rattle.std.specs.Prelude.{◌≤◌, length};

use std::io;

// Puts the elements behind so many spaces, up to the next space, at the front of a row, and says how many: none where there are fewer spaces. Those that have no place there are left out.
pub(crate) fn elements_at(text: &[u8], spaces: usize, row: &mut [u8]) -> usize
    ensures { result ≤ length row.old }
{
    let word = text.split(|&b| b == b' ').nth(spaces).unwrap_or(&[]);
    let n = word.len().min(row.len());
    for (place, &b) in row.iter_mut().zip(word) {
        *place = b.wrapping_sub(b'0');
    }
    n
}

// Writes the elements of a row behind a space. The row has their characters afterwards.
pub(crate) fn put_elements(rt: &impl Print, row: &mut [u8]) -> io::Result<()> {
    for place in row.iter_mut() {
        *place = place.wrapping_add(b'0');
    }
    rt.write_all(b" ")?;
    rt.write_all(row)
}
