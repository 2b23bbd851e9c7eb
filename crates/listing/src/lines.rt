// Lines of the listing, written at a place of a lent row. Every other place stays as it was.
// Lines are numbered one after the other, so a number is kept as its decimal digits and counted up: it is divided where a run of lines begins, not for each line.
ghost use Rattle.std.specs.Prelude.{◌≡◌, ◌∷◌, [], suc, ◌+◌, ◌≤◌, ◌<◌, length};
ghost use Rattle.wire.specs.Digits.{digits};
ghost use Rattle.listing.specs.Listing.{in_decimal, all_nines, First, Put, PutLine};

use std::marker::Model;

// A number as its twenty decimal digits, highest first, and the place of the first that is written. A contract sees the number.
#[derive(Drop)]
pub(crate) struct Numeral {
    digits: [u8; 20],
    first: usize,
}

impl Model for Numeral {
    ghost use Rattle.std.specs.Prelude.{ℕ};
    ghost use Rattle.wire.specs.Digits.{num};
    ghost use Rattle.listing.specs.Listing.{Spelled};

    ghost Value = { ℕ };

    ghost view = { λ n. num 10 n.digits };

    ghost invariant = { λ n. Spelled (num 10 n.digits) n.digits n.first };
}

impl Numeral {
    // The numeral of a number.
    #[tactic(auto, using(crate::proofs::lines::Counting::begun))]
    pub(crate) fn of(n: u64) -> Self
        ensures { result ≡ n }
    {
        let digits = digits_of(n);
        let first = first_of(&digits);
        Self { digits, first }
    }

    // Becomes the next number: the nines at the end become zeros, and the digit before them gets one more.
    // The place where the nines end is wanted behind the loop, so it is counted by hand.
    pub(crate) fn count_up(&mut self)
        requires { self.old < all_nines }
        ensures { self.new ≡ suc self.old }
    {
        let mut i = 19;
        while self.digits[i] == 9 {
            self.digits[i] = 0;
            i -= 1;
        }
        self.digits[i] += 1;
        self.first = self.first.min(i);
    }

    // Puts the number. Answers the place behind it.
    fn put(&self, row: &mut [u8], at: usize) -> usize
        requires { at + 20 ≤ length row.old }
        ensures { Put row.old at (in_decimal self.now) row.new result }
    {
        // The place behind the last digit is the answer, so the places are counted by hand.
        let mut to = at;
        for digit in &self.digits[self.first..] {
            row[to] = b'0' + digit;
            to += 1;
        }
        to
    }

    // Puts the line of the piece with this number. Answers the place behind it.
    #[tactic(auto, using(crate::proofs::lines::Laws::decimal_length, crate::proofs::lines::Laws::byte_length))]
    pub(crate) fn put_line(&self, answer: u8, row: &mut [u8], at: usize) -> usize
        requires { at + 25 ≤ length row.old }
        ensures { PutLine row.old at self.now answer row.new result }
    {
        let at = self.put(row, at);
        let at = put_text(b" ", row, at);
        let at = put_small(answer, row, at);
        put_text(b"\n", row, at)
    }
}

// The twenty decimal digits of a number, highest first.
#[tactic(auto, using(crate::proofs::lines::Counting::divided_more, crate::proofs::lines::Counting::divided_all))]
fn digits_of(n: u64) -> [u8; 20]
    ensures { result ≡ digits 10 20 n }
{
    let mut digits = [0; 20];
    let mut left = n;
    // By places, from the last: the proof follows the digits that stand by their places.
    for i in (0..20).rev() {
        digits[i] = (left % 10) as u8;
        left /= 10;
    }
    digits
}

// The place of the first digit that is written: zeros in front are not, but the last digit is.
fn first_of(digits: &[u8; 20]) -> usize
    requires { length digits.now ≡ 20 }
    ensures { First digits.now result }
{
    digits.iter().position(|&digit| digit != 0).unwrap_or(19)
}

// Puts a text. Answers the place behind it.
fn put_text(text: &[u8], row: &mut [u8], at: usize) -> usize
    requires { at + length text.now ≤ length row.old }
    ensures { Put row.old at text.now row.new result }
{
    let end = at + text.len();
    row[at..end].copy_from_slice(text);
    end
}

// Puts a number of at most three digits. Answers the place behind it.
#[tactic(auto, using(crate::proofs::lines::Laws::one_digit, crate::proofs::lines::Laws::two_digits, crate::proofs::lines::Laws::three_digits))]
fn put_small(n: u8, row: &mut [u8], at: usize) -> usize
    requires { at + 3 ≤ length row.old }
    ensures { Put row.old at (in_decimal n) row.new result }
{
    match n {
        0..=9 => put_text(&[b'0' + n], row, at),
        10..=99 => put_text(&[b'0' + n / 10, b'0' + n % 10], row, at),
        _ => put_text(
            &[b'0' + n / 100, b'0' + n / 10 % 10, b'0' + n % 10],
            row,
            at,
        ),
    }
}
