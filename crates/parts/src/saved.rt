// Saved settings: five bytes, and back. Both ways go by the one number that the forty bits write.
ghost use Rattle.std.specs.Prelude.{◌≡◌, ℕ, true, ◌&&◌, ◌++◌, ◌<◌, ◌≤◌, ◌/◌, ◌%◌, length, drop, replicate, eqb};
ghost use Rattle.wire.specs.Digits.{digits};
ghost use Rattle.wire.specs.Numbers.{answered};
ghost use Rattle.parts.specs.Settings.{settings_lawful};
ghost use Rattle.parts.specs.Saved.{format_number, modulation_bit, clock_bit, generator_bit, sign_bit, settings_bits, saved_form, format_of_number, modulation_of_bit, clock_of_bit, generator_of_bit, offset_of_bits, settings_in, meaningful, read_bits, put_refusal, row_put, read_saved, format_back, modulation_back, clock_back, generator_back};

use crate::settings::{Settings, settings_fit};
use wire::numbers::Refusal;
use wire::packets::{ClockSource, Format, Generator, Modulation, offset_size};

// A setting that is saved as a number: which one, and what a number says. The settings are those of the packets, so neither side of a `From` would be of this crate.
trait Field: Sized {
    ghost saved_as: { Self → ℕ };

    ghost said_by: { ℕ → Self };

    fn number(self) -> u64
        ensures { (result ≡ saved_as self) × (result < 8) };

    fn of(number: u64) -> Self
        ensures { result ≡ said_by number };

    ghost back: { (x : Self) → said_by (saved_as x) ≡ x };
}

impl Field for Format {
    ghost saved_as = { format_number };

    ghost said_by = { format_of_number };

    ghost back = { format_back };

    // The order of their declaration.
    fn number(self) -> u64 {
        self as u64
    }

    fn of(number: u64) -> Self {
        match number {
            0 => Format::A,
            1 => Format::B,
            2 => Format::C,
            3 => Format::N,
            _ => Format::X,
        }
    }
}

impl Field for Modulation {
    ghost saved_as = { modulation_bit };

    ghost said_by = { modulation_of_bit };

    ghost back = { modulation_back };

    fn number(self) -> u64 {
        match self {
            Modulation::M => 0,
            Modulation::D => 1,
        }
    }

    fn of(number: u64) -> Self {
        match number {
            1 => Modulation::D,
            _ => Modulation::M,
        }
    }
}

impl Field for ClockSource {
    ghost saved_as = { clock_bit };

    ghost said_by = { clock_of_bit };

    ghost back = { clock_back };

    fn number(self) -> u64 {
        match self {
            ClockSource::External => 1,
            ClockSource::Internal => 0,
        }
    }

    fn of(number: u64) -> Self {
        match number {
            1 => ClockSource::External,
            _ => ClockSource::Internal,
        }
    }
}

impl Field for Generator {
    ghost saved_as = { generator_bit };

    ghost said_by = { generator_of_bit };

    ghost back = { generator_back };

    fn number(self) -> u64 {
        match self {
            Generator::B => 0,
            Generator::H => 1,
        }
    }

    fn of(number: u64) -> Self {
        match number {
            1 => Generator::H,
            _ => Generator::B,
        }
    }
}

#[tactic(auto, using(crate::proofs::saved::Laws::sign_minus, crate::proofs::saved::Laws::sign_plus))]
fn sign_bit(offset: i32) -> u64
    ensures { (result ≡ sign_bit offset) × (result < 2) }
{
    u64::from(offset < 0)
}

// The number that the forty bits of settings write.
#[tactic(auto, using(crate::proofs::saved::Laws::number_bits))]
fn bits_of(s: Settings) -> u64
    requires { settings_lawful s ≡ true }
    ensures { digits 2 40 result ≡ settings_bits s ++ replicate 6 0 }
{
    let n = u64::from(s.mode) * 8 + s.format.number();
    let n = n * 2 + s.modulation.number();
    let n = n * 2 + s.clock.number();
    let n = n * 2 + s.generator.number();
    let n = n * 2 + sign_bit(s.offset);
    (n * 0x100_0000 + u64::from(offset_size(s.offset))) * 64
}

// The saved form at the front of a row: the last five of the number's eight bytes. Places behind it stay as they were.
#[tactic(auto, using(crate::proofs::saved::Laws::last_five))]
fn save_settings(s: Settings, row: &mut [u8])
    requires { (settings_lawful s ≡ true) × (5 ≤ length row.old) }
    ensures { row.new ≡ saved_form s ++ drop 5 row.old }
{
    row[..5].copy_from_slice(&bits_of(s).to_be_bytes()[3..]);
}

// The sign of the offset, among the forty bits of a number.
fn sign_at(n: u64) -> u64
    ensures { result ≡ n / 1073741824 % 2 }
{
    (n >> 30) % 2
}

// And its size.
fn size_at(n: u64) -> u64
    ensures { (result ≡ n / 64 % 16777216) × (result < 16777216) }
{
    (n >> 6) % 0x100_0000
}

fn offset_of(sign: u64, size: u64) -> i32
    requires { size < 16777216 }
    ensures { result ≡ offset_of_bits sign size }
{
    if sign == 1 {
        -(size as i32)
    } else {
        size as i32
    }
}

// What the forty bits of a number say.
#[tactic(auto, using(crate::proofs::saved::Laws::settings_at))]
fn settings_of(n: u64) -> Settings
    ensures { result ≡ settings_in (digits 2 40 n) }
{
    Settings {
        mode: ((n >> 37) % 8) as u8,
        format: Format::of((n >> 34) % 8),
        modulation: Modulation::of((n >> 33) % 2),
        clock: ClockSource::of((n >> 32) % 2),
        generator: Generator::of((n >> 31) % 2),
        offset: offset_of(sign_at(n), size_at(n)),
    }
}

// A minus sign before the size 0.
fn minus_zero(sign: u64, size: u64) -> bool
    ensures { result ≡ (eqb sign 1 && eqb size 0) }
{
    sign == 1 && size == 0
}

// Whether the forty bits of a number are a saved form: a format that there is, settings that a card may have, no minus zero, and the spare bits zero.
#[tactic(auto, using(crate::proofs::saved::Laws::meaningful_at))]
fn is_meant(n: u64, s: Settings) -> bool
    requires { s ≡ settings_in (digits 2 40 n) }
    ensures { result ≡ meaningful (digits 2 40 n) }
{
    (n >> 34) % 8 <= 4 && settings_fit(s) && !minus_zero(sign_at(n), size_at(n)) && n % 64 == 0
}

// What the forty bits of a number are loaded as.
#[tactic(auto, unfolding(crate::specs::Saved::read_bits))]
fn read_bits(n: u64) -> Option<Settings>
    ensures { result ≡ read_bits (digits 2 40 n) }
{
    let s = settings_of(n);
    is_meant(n, s).then_some(s)
}

// The settings that bytes save; none where they are not five, or not a saved form.
#[tactic(auto, using(crate::proofs::saved::Laws::five_bytes, crate::proofs::saved::Laws::not_five))]
pub fn load_settings(bytes: &[u8]) -> Option<Settings>
    ensures { result ≡ read_saved bytes.now }
{
    let &[a, b, c, d, e] = bytes else {
        return None;
    };
    read_bits(u64::from_be_bytes([0, 0, 0, a, b, c, d, e]))
}

// Settings, saved at the front of a row: 18 for settings that are not lawful, 14 where the row is too short. Places behind them, and the whole row beside a
// refusal, stay as they were.
#[tactic(auto, using(wire::proofs::numbers::Names::unlawful_named, wire::proofs::numbers::Names::short_row_named), unfolding(crate::specs::Saved::put_refusal, crate::specs::Saved::row_put))]
pub fn put_settings(s: Settings, row: &mut [u8]) -> Result<(), Refusal>
    ensures { (result ≡ answered (put_refusal s (length row.old)) tt) × (row.new ≡ row_put s row.old) }
{
    if !settings_fit(s) {
        return Err(Refusal::Unlawful);
    }
    if row.len() < 5 {
        return Err(Refusal::ShortRow);
    }
    save_settings(s, row);
    Ok(())
}
