// Loops over words and packets alone. Each time and each packet depends on what was answered before it.
use crate::sums::mixed;
use wire::numbers::number_of;
use wire::packets::{Packet, offset_size, read_packet, write_packet};
use wire::time::Ticks;
use wire::words::{read_words, write_words};

// A time to words.
pub(crate) fn words_written(sum: u64) -> u64 {
    let [_, days, minutes, seconds, fraction] = write_words(
        (1 + sum % 256) as u16,
        Ticks { ticks: sum },
    ).unwrap_or([0; 5]);
    let sum = mixed(sum, days);
    let sum = mixed(sum, minutes);
    let sum = mixed(sum, seconds);
    mixed(sum, fraction)
}

// Words of day 45, whose last digits depend on a sum.
fn five_words(sum: u64) -> [u16; 5] {
    let low = (sum % 8) as u16;
    [
        0,
        0x4510 + low,
        0x0730 + low,
        0x1230 + low,
        0x5600 + low * 16,
    ]
}

// Words to a time.
pub(crate) fn words_read(sum: u64) -> u64 {
    match read_words(five_words(sum)) {
        Ok(moment) => mixed(mixed(sum, moment.day), moment.tick.ticks),
        Err(_) => mixed(mixed(sum, 0u16), 0u64),
    }
}

// Packet A, with a digit 0 to 3.
pub(crate) fn short_packet(sum: u64) -> [u8; 4] {
    let last = 48 + ((sum % 4) as u8);
    [0x01, b'A', last, 0x17]
}

// Packet G, the longest.
pub(crate) fn long_packet(sum: u64) -> [u8; 11] {
    let last = 48 + ((sum % 4) as u8);
    [
        0x01, b'G', b'-', b'0', b'0', b'0', b'9', b'8', b'7', last, 0x17,
    ]
}

// The size of the offset that a packet has, 0 if none.
fn size_in(p: Packet) -> u64 {
    match p {
        Packet::G(offset) => u64::from(offset_size(offset)),
        _ => 0,
    }
}

// Packet G read.
pub(crate) fn packet_read(sum: u64) -> u64 {
    match read_packet(&long_packet(sum)) {
        Ok(read) => mixed(sum, size_in(read.packet)),
        Err(refusal) => mixed(sum, refusal.number()),
    }
}

// Packet G written.
pub(crate) fn packet_written(sum: u64) -> u64 {
    let mut row = [0u8; 11];
    let p = write_packet(Packet::G((sum % 4_194_304) as i32), &mut row);
    let sum = mixed(sum, number_of(&p));
    let sum = mixed(sum, row[8]);
    mixed(sum, row[9])
}

// A call so many times.
pub(crate) fn wire_sum<C: Fn(u64) -> u64>(times: usize, call: C) -> u64
    requires { C.IsAlwaysCallable call }
{
    let mut sum: u64 = 7;
    for _ in 0..times {
        sum = call(sum);
    }
    sum
}
