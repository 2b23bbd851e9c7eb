// The numbers of a script, decimal and each behind a space: read from a line, which is a letter and its numbers, and written to standard output.
//
// What is proved: the number behind so many spaces is what the definitions in specs/ read there, for every text. Of the writing, only that nothing goes wrong.
#![tactic(auto)]

pub mod writing;

ghost use Rattle.std.specs.Prelude.{◌≡◌, ℕ, ◌+◌, ◌*◌, ◌%◌, eqb};
ghost use Rattle.cases.specs.Numbers.{with_digit, number_at};

use wire::time::Ticks;

// A number with one more digit.
fn with_digit(n: u64, b: u8) -> u64
    ensures { result ≡ with_digit n b }
{
    n % 1_000_000_000_000 * 10 + u64::from(b % 16)
}

// The number behind so many spaces; 0 where there is none.
pub fn number_at(text: &[u8], place: usize) -> u64
    ensures { result ≡ number_at place text.now }
{
    let digits = text.split(|&b| b == b' ').nth(place).unwrap_or(&[]);
    digits.iter().fold(0, |n, &b| with_digit(n, b))
}

// A type of whole numbers that holds so many, and the one of them that a number of 64 bits ends in.
pub trait Low {
    ghost size: { ℕ };

    ghost value: { Self → ℕ };

    fn low(n: u64) -> Self
        ensures { value result ≡ n % size };
}

impl Low for u8 {
    ghost size = { 256 };

    ghost value = { λ n. n };

    fn low(n: u64) -> u8 {
        (n % 256) as u8
    }
}

impl Low for u16 {
    ghost size = { 65536 };

    ghost value = { λ n. n };

    fn low(n: u64) -> u16 {
        (n % 65_536) as u16
    }
}

impl Low for u32 {
    ghost size = { 4294967296 };

    ghost value = { λ n. n };

    fn low(n: u64) -> u32 {
        (n % 4_294_967_296) as u32
    }
}

// The same, as far as a type holds it.
pub fn at<N: Low>(text: &[u8], place: usize) -> N
    ensures { N.value result ≡ number_at place text.now % N.size }
{
    N::low(number_at(text, place))
}

// 1 for true.
pub fn flag_at(text: &[u8], place: usize) -> bool
    ensures { result ≡ eqb (number_at place text.now % 256) 1 }
{
    at::<u8>(text, place) == 1
}

// A 64-bit number from its halves, each at a place of its own: a script's numbers are shorter.
pub fn wide_at(text: &[u8], high: usize, low: usize) -> u64
    ensures { result ≡ number_at high text.now % 4294967296 * 4294967296 + number_at low text.now % 4294967296 }
{
    u64::from(at::<u32>(text, high)) * 4_294_967_296 + u64::from(at::<u32>(text, low))
}

pub fn ticks_at(text: &[u8], place: usize) -> Ticks
    ensures { result.ticks ≡ number_at place text.now }
{
    Ticks {
        ticks: number_at(text, place),
    }
}
