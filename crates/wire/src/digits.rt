// Decimal digits, two at a time: from a table, and read back. Every digit has four bits.
//
// No division leads from a number to its digits. It is given in shares of a unit, 2^47 to one: a shift gives the whole units, and the rest times sixty, or a hundred, is
// given in shares of a unit that much smaller.
ghost use Rattle.std.specs.Prelude.{◌≡◌, ◌<◌, ◌≤◌};
ghost use Rattle.wire.specs.Digits.{digits, num, Splits};

// How many shares make a unit.
const SHARES_IN_UNIT: u64 = 0x8000_0000_0000;

// Whole units, and the shares that are left.
#[derive(Clone, Copy)]
pub(crate) struct Counted {
    pub count: u64,
    pub rest: u64,
}

// The whole units in x shares.
pub(crate) fn split(x: u64) -> Counted
    ensures { Splits x result }
{
    let count = x >> 47;
    Counted {
        count,
        rest: x - count * SHARES_IN_UNIT,
    }
}

// The number that two digits write.
#[tactic(auto, unfolding(crate::specs::Digits::digits, crate::specs::Digits::num))]
pub(crate) fn two(b: u16) -> u16
    requires { b < 256 }
    ensures { (result ≡ num 10 (digits 16 2 b)) × (result ≤ 165) }
{
    b / 16 * 10 + b % 16
}

// The two digits of a number below a hundred.
pub(crate) fn pair(n: u64) -> u16
    requires { n < 100 }
    ensures { (result ≡ num 16 (digits 10 2 n)) × (result < 256) }
{
    u16::from(PAIRS[n as usize])
}

// The two digits of each number below a hundred.
static PAIRS: [u8; 100] = [
    0x00, 0x01, 0x02, 0x03, 0x04, 0x05, 0x06, 0x07, 0x08, 0x09, 0x10, 0x11, 0x12, 0x13, 0x14, 0x15,
    0x16, 0x17, 0x18, 0x19, 0x20, 0x21, 0x22, 0x23, 0x24, 0x25, 0x26, 0x27, 0x28, 0x29, 0x30, 0x31,
    0x32, 0x33, 0x34, 0x35, 0x36, 0x37, 0x38, 0x39, 0x40, 0x41, 0x42, 0x43, 0x44, 0x45, 0x46, 0x47,
    0x48, 0x49, 0x50, 0x51, 0x52, 0x53, 0x54, 0x55, 0x56, 0x57, 0x58, 0x59, 0x60, 0x61, 0x62, 0x63,
    0x64, 0x65, 0x66, 0x67, 0x68, 0x69, 0x70, 0x71, 0x72, 0x73, 0x74, 0x75, 0x76, 0x77, 0x78, 0x79,
    0x80, 0x81, 0x82, 0x83, 0x84, 0x85, 0x86, 0x87, 0x88, 0x89, 0x90, 0x91, 0x92, 0x93, 0x94, 0x95,
    0x96, 0x97, 0x98, 0x99,
];
