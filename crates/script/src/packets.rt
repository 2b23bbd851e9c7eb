// A packet read on its own: its number; its id, whether its value is below 0, the size of its value, and the modulation's letter; and whether it needs the jam off. All
// but the number are 0 beside a refusal.
use crate::cards::count_at;
use cases::at;
use cases::writing::put;
use std::io;
use wire::packets::{Letter, Packet, offset_size, read_packet};

// The bytes behind the first number.
fn bytes_at(text: &[u8], row: &mut [u8; 64]) {
    for (i, place) in row.iter_mut().enumerate() {
        *place = at(text, i + 2);
    }
}

fn put_values(rt: &impl Print, id: u8, below: bool, size: u32, modulation: u8) -> io::Result<()> {
    put(rt, id)?;
    put(rt, below)?;
    put(rt, size)?;
    put(rt, modulation)
}

fn put_packet(rt: &impl Print, p: Packet) -> io::Result<()> {
    match p {
        Packet::A(mode) => put_values(rt, b'A', false, u32::from(mode), 0),
        Packet::G(offset) => put_values(rt, b'G', offset < 0, offset_size(offset), 0),
        Packet::H(f, m) => put_values(rt, b'H', false, u32::from(f.letter()), m.letter()),
        Packet::I(c) => put_values(rt, b'I', false, u32::from(c.letter()), 0),
        Packet::K(g) => put_values(rt, b'K', false, u32::from(g.letter()), 0),
    }
}

// So many bytes, 64 at most.
pub(crate) fn told_reading_alone(rt: &impl Print, text: &[u8]) -> io::Result<()> {
    let mut row = [0u8; 64];
    bytes_at(text, &mut row);
    match read_packet(&row[..count_at(text, 64)]) {
        Ok(read) => {
            print!(rt; " 0")?;
            put_packet(rt, read.packet)?;
            put(rt, read.needs_jam_off)
        }
        Err(refusal) => print!(rt; " {} 0 0 0 0 0", refusal.number()),
    }
}
