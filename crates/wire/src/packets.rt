// Packets A, G, H, I and K, read from a row of bytes and written into one.
ghost use Rattle.std.specs.Prelude.{◌≡◌, ◌∷◌, ◌<◌, ◌≤◌, ◌+◌, ◌/◌, ◌%◌, ℕ, eqb, length, nat_abs, Result, Ok};
ghost use Rattle.std.specs.List.{position};
ghost use Rattle.wire.specs.declared.numbers.Refusal.{Refusal};
ghost use Rattle.wire.specs.Packets.{mode_means, pair_means, offset_fits, offset_large, needs_jam_off, letter_of_format, letter_of_modulation, letter_of_clock, letter_of_generator, read_format, read_modulation, read_clock, read_generator, format_letter, modulation_letter, clock_letter, generator_letter, sign_of, framed, read_one, read_body, read_number, read_packet, write_packet, row_written, put, put_into};

use crate::numbers::Refusal;

// The time code's format, by its letter.
#[derive(Clone, Copy, Debug, PartialEq, Eq)]
pub enum Format {
    A,
    B,
    C,
    N,
    X,
}

// Its modulation: an amplitude modulated carrier, or DC levels.
#[derive(Clone, Copy, Debug, PartialEq, Eq)]
pub enum Modulation {
    M,
    D,
}

// Which clock the card runs on.
#[derive(Clone, Copy, Debug, PartialEq, Eq)]
pub enum ClockSource {
    External,
    Internal,
}

// The code that the generator writes, by its letter.
#[derive(Clone, Copy, Debug, PartialEq, Eq)]
pub enum Generator {
    B,
    H,
}

// One packet, by its id: A mode, G offset in ticks, H format and modulation, I clock source, K generator code.
#[derive(Clone, Copy, Debug, PartialEq, Eq)]
pub enum Packet {
    A(u8),
    G(i32),
    H(Format, Modulation),
    I(ClockSource),
    K(Generator),
}

// What a row reads as: a packet, and whether it needs the jam off.
#[derive(Clone, Copy, Debug, PartialEq, Eq)]
pub struct PacketRead {
    pub packet: Packet,
    pub needs_jam_off: bool,
}

// A setting that stands in a packet as one letter.
pub trait Letter: Copy {
    ghost letter_of: { Self → ℕ };

    ghost letter_read: { ℕ → Result Self Refusal };

    fn letter(self) -> u8
        ensures { result ≡ letter_of self };

    // The setting that a letter stands for; 9 for any other byte.
    fn of_letter(b: u8) -> Result<Self, Refusal>
        ensures { result ≡ letter_read b };

    // Each letter reads as the setting that it is written for.
    ghost back: { (x : Self) → letter_read (letter_of x) ≡ Ok x };
}

impl Letter for Format {
    ghost letter_of = { letter_of_format };

    ghost letter_read = { read_format };

    ghost back = { format_letter };

    fn letter(self) -> u8 {
        match self {
            Format::A => b'A',
            Format::B => b'B',
            Format::C => b'C',
            Format::N => b'N',
            Format::X => b'X',
        }
    }

    #[tactic(auto, unfolding(crate::specs::Packets::format_of))]
    fn of_letter(b: u8) -> Result<Self, Refusal> {
        match b {
            b'A' => Ok(Format::A),
            b'B' => Ok(Format::B),
            b'C' => Ok(Format::C),
            b'N' => Ok(Format::N),
            b'X' => Ok(Format::X),
            _ => Err(Refusal::WrongByte),
        }
    }
}

impl Letter for Modulation {
    ghost letter_of = { letter_of_modulation };

    ghost letter_read = { read_modulation };

    ghost back = { modulation_letter };

    fn letter(self) -> u8 {
        match self {
            Modulation::M => b'M',
            Modulation::D => b'D',
        }
    }

    #[tactic(auto, unfolding(crate::specs::Packets::modulation_of))]
    fn of_letter(b: u8) -> Result<Self, Refusal> {
        match b {
            b'M' => Ok(Modulation::M),
            b'D' => Ok(Modulation::D),
            _ => Err(Refusal::WrongByte),
        }
    }
}

impl Letter for ClockSource {
    ghost letter_of = { letter_of_clock };

    ghost letter_read = { read_clock };

    ghost back = { clock_letter };

    fn letter(self) -> u8 {
        match self {
            ClockSource::External => b'E',
            ClockSource::Internal => b'I',
        }
    }

    #[tactic(auto, unfolding(crate::specs::Packets::clock_of))]
    fn of_letter(b: u8) -> Result<Self, Refusal> {
        match b {
            b'E' => Ok(ClockSource::External),
            b'I' => Ok(ClockSource::Internal),
            _ => Err(Refusal::WrongByte),
        }
    }
}

impl Letter for Generator {
    ghost letter_of = { letter_of_generator };

    ghost letter_read = { read_generator };

    ghost back = { generator_letter };

    fn letter(self) -> u8 {
        match self {
            Generator::B => b'B',
            Generator::H => b'H',
        }
    }

    #[tactic(auto, unfolding(crate::specs::Packets::generator_of))]
    fn of_letter(b: u8) -> Result<Self, Refusal> {
        match b {
            b'B' => Ok(Generator::B),
            b'H' => Ok(Generator::H),
            _ => Err(Refusal::WrongByte),
        }
    }
}

// Modes 4 and 7 have no meaning.
pub fn mode_means(mode: u8) -> bool
    ensures { result ≡ mode_means mode }
{
    mode != 4 && mode != 7
}

// Format A goes only with D; C and X only with M.
pub fn pair_means(f: Format, m: Modulation) -> bool
    ensures { result ≡ pair_means f m }
{
    match m {
        Modulation::M => !matches!(f, Format::A),
        Modulation::D => !matches!(f, Format::C | Format::X),
    }
}

// The size of an offset, whatever its sign.
pub fn offset_size(offset: i32) -> u32
    ensures { result ≡ nat_abs offset }
{
    offset.unsigned_abs()
}

// An offset of at most seven digits, either way.
pub fn offset_fits(offset: i32) -> bool
    ensures { result ≡ offset_fits offset }
{
    offset_size(offset) <= 9_999_999
}

// A large offset: beyond 9,900 ticks, either way.
pub fn offset_large(offset: i32) -> bool
    ensures { result ≡ offset_large offset }
{
    9_900 < offset_size(offset)
}

// Whether a packet needs the jam off: G with a large offset does, and no other.
pub fn needs_jam_off(p: Packet) -> bool
    ensures { result ≡ needs_jam_off p }
{
    match p {
        Packet::G(offset) => offset_large(offset),
        _ => false,
    }
}

#[tactic(auto, using(crate::proofs::packets::Signs::sign_minus, crate::proofs::packets::Signs::sign_plus))]
fn sign_of(offset: i32) -> u8
    ensures { result ≡ sign_of offset }
{
    if offset < 0 { b'-' } else { b'+' }
}

// The place of the first 0x17, if there is one.
fn end_of(row: &[u8]) -> Option<usize>
    ensures { result ≡ position (λ b. eqb b 0x17) row.now }
{
    row.iter().position(|&b| b == 0x17)
}

// The number that digits write, or none if one of them is no digit.
fn read_number(digits: &[u8]) -> Option<u32>
    requires { length digits.now ≤ 9 }
    ensures { result ≡ read_number digits.now }
{
    let mut n = 0;
    for &b in digits {
        if !b.is_ascii_digit() {
            return None;
        }
        n = n * 10 + u32::from(b - b'0');
    }
    Some(n)
}

// Data of packet A: one digit.
#[tactic(auto, using(crate::proofs::packets::Laws::mode_length, crate::proofs::packets::Laws::mode_byte, crate::proofs::packets::Laws::mode_meaning, crate::proofs::packets::Laws::mode_read))]
fn read_mode(bytes: &[u8]) -> Result<Packet, Refusal>
    ensures { result ≡ read_body (0x41 ∷ bytes.now) }
{
    let mode = match bytes {
        &[digit @ b'0'..=b'7'] => digit - b'0',
        [_] => return Err(Refusal::WrongByte),
        _ => return Err(Refusal::WrongLength),
    };
    if !mode_means(mode) {
        return Err(Refusal::NoMeaning);
    }
    Ok(Packet::A(mode))
}

// Data of packet G: a sign and seven digits.
fn read_offset(bytes: &[u8]) -> Result<Packet, Refusal>
    ensures { result ≡ read_body (0x47 ∷ bytes.now) }
{
    let (sign, digits) = match bytes {
        [sign, digits @ ..] if digits.len() == 7 => (sign, digits),
        _ => return Err(Refusal::WrongLength),
    };
    let size = read_number(digits).ok_or(Refusal::WrongByte)? as i32;
    match sign {
        b'+' => Ok(Packet::G(size)),
        b'-' => Ok(Packet::G(-size)),
        _ => Err(Refusal::WrongByte),
    }
}

// Data of packet H: a format and a modulation.
#[tactic(auto, using(crate::proofs::packets::Laws::format_length))]
fn read_format(bytes: &[u8]) -> Result<Packet, Refusal>
    ensures { result ≡ read_body (0x48 ∷ bytes.now) }
{
    let &[f, m] = bytes else {
        return Err(Refusal::WrongLength);
    };
    let format = Format::of_letter(f)?;
    let modulation = Modulation::of_letter(m)?;
    if !pair_means(format, modulation) {
        return Err(Refusal::NoMeaning);
    }
    Ok(Packet::H(format, modulation))
}

// Data of packets I and K: one letter.
fn read_letter<L: Letter>(bytes: &[u8]) -> Result<L, Refusal>
    ensures { result ≡ read_one L.letter_read bytes.now }
{
    match bytes {
        &[b] => L::of_letter(b),
        _ => Err(Refusal::WrongLength),
    }
}

// What stands between 0x01 and the first 0x17: an id and its data.
fn read_body(body: &[u8]) -> Result<Packet, Refusal>
    ensures { result ≡ read_body body.now }
{
    let [id, bytes @ ..] = body else {
        return Err(Refusal::UnknownId);
    };
    match id {
        b'A' => read_mode(bytes),
        b'G' => read_offset(bytes),
        b'H' => read_format(bytes),
        b'I' => Ok(Packet::I(read_letter(bytes)?)),
        b'K' => Ok(Packet::K(read_letter(bytes)?)),
        _ => Err(Refusal::UnknownId),
    }
}

// What a row of bytes reads as. One pass over at most 41 bytes: none behind them, and none behind the first 0x17, is looked at.
pub fn read_packet(row: &[u8]) -> Result<PacketRead, Refusal>
    ensures { result ≡ read_packet row.now }
{
    let [0x01, ..] = row else {
        return Err(Refusal::NoStart);
    };
    let looked_at = row.len().min(41);
    let Some(end) = end_of(&row[..looked_at]) else {
        return Err(if looked_at == 41 {
            Refusal::TooLong
        } else {
            Refusal::NoEnd
        });
    };
    let packet = read_body(&row[1..end])?;
    Ok(PacketRead {
        packet,
        needs_jam_off: needs_jam_off(packet),
    })
}

// A packet's id and data at the front of a row, between 0x01 and 0x17: how many bytes that makes, if there is room.
fn put<const N: usize>(id: u8, bytes: [u8; N], row: &mut [u8]) -> Result<usize, Refusal>
    requires { N ≤ 8 }
    ensures { (result ≡ put (framed id bytes.entry) (length row.old)) × (row.new ≡ put_into (framed id bytes.entry) row.old) }
{
    if row.len() < N + 3 {
        return Err(Refusal::ShortRow);
    }
    row[0] = 0x01;
    row[1] = id;
    row[2..N + 2].copy_from_slice(&bytes);
    row[N + 2] = 0x17;
    Ok(N + 3)
}

// A number's decimal digit that a power of ten counts.
fn digit(n: u32, power: u32) -> u8
    requires { 0 < power }
    ensures { result ≡ 48 + n / power % 10 }
{
    b'0' + (n / power % 10) as u8
}

fn write_mode(mode: u8, row: &mut [u8]) -> Result<usize, Refusal>
    ensures { (result ≡ write_packet (Packet.A mode) (length row.old)) × (row.new ≡ row_written (Packet.A mode) row.old) }
{
    if 7 < mode {
        return Err(Refusal::WrongByte);
    }
    if !mode_means(mode) {
        return Err(Refusal::NoMeaning);
    }
    put(b'A', [b'0' + mode], row)
}

// A sign and seven digits.
fn write_offset(offset: i32, row: &mut [u8]) -> Result<usize, Refusal>
    ensures { (result ≡ write_packet (Packet.G offset) (length row.old)) × (row.new ≡ row_written (Packet.G offset) row.old) }
{
    if !offset_fits(offset) {
        return Err(Refusal::WrongByte);
    }
    let n = offset_size(offset);
    let bytes = [
        sign_of(offset),
        digit(n, 1_000_000),
        digit(n, 100_000),
        digit(n, 10_000),
        digit(n, 1_000),
        digit(n, 100),
        digit(n, 10),
        digit(n, 1),
    ];
    put(b'G', bytes, row)
}

fn write_format(f: Format, m: Modulation, row: &mut [u8]) -> Result<usize, Refusal>
    ensures { (result ≡ write_packet (Packet.H f m) (length row.old)) × (row.new ≡ row_written (Packet.H f m) row.old) }
{
    if !pair_means(f, m) {
        return Err(Refusal::NoMeaning);
    }
    put(b'H', [f.letter(), m.letter()], row)
}

// A packet's bytes at the front of a row: 9 for a mode above 7 or an offset beyond seven digits, 10 for one without a meaning, 14 where the
// row is too short. Places behind the bytes, and the whole row beside a refusal, stay as they were.
pub fn write_packet(p: Packet, row: &mut [u8]) -> Result<usize, Refusal>
    ensures { (result ≡ write_packet p (length row.old)) × (row.new ≡ row_written p row.old) }
{
    match p {
        Packet::A(mode) => write_mode(mode, row),
        Packet::G(offset) => write_offset(offset, row),
        Packet::H(f, m) => write_format(f, m, row),
        Packet::I(c) => put(b'I', [c.letter()], row),
        Packet::K(g) => put(b'K', [g.letter()], row),
    }
}
