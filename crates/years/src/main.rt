// Ends every year. Standard input has a byte for each, from year 1 on: the last digit of how many days it has. Out comes a line for each year: the year and its days; the
// numbers given back when the day after its last one is set, and then held; when its last second is set, and a second waited; the time to which that wait comes; and the days
// before the year. `tests/years.py` says what they must be.
#![tactic(auto)]

use card::card::Card;
use card::registers::interrupt_line;
use card::reset::fresh_card;
use card::setting::set_time;
use card::waiting::wait;
use cases::writing::put;
use clock::clock::Clock;
use clock::time::{Time, days_before};
use std::io;
use std::io::Read;
use telling::put_time;
use wire::numbers::number_of;
use wire::time::{TICKS_OF_SECOND, Ticks};

// The card with a day in it, lawful or not.
fn holding(card: Card, year: u16, day: u16) -> Card {
    let tick = Ticks { ticks: 0 };
    let clock = Clock {
        time: Time { year, day, tick },
        ..card.clock
    };
    Card { clock, ..card }
}

// The day after the last one, set and held.
fn put_beyond(rt: &impl Print, card: Card, year: u16, day: u16) -> io::Result<()> {
    put(
        rt,
        number_of(&set_time(card, year, day, 23, 59, 59).outcome),
    )?;
    put(rt, number_of(&interrupt_line(holding(card, year, day))))
}

// The last second, and a wait over its end.
fn put_end(rt: &impl Print, card: Card, year: u16, day: u16) -> io::Result<()> {
    let set = set_time(card, year, day, 23, 59, 59);
    put(rt, number_of(&set.outcome))?;
    let mut row = [0u64; 1];
    let w = wait(
        set.after,
        Ticks {
            ticks: TICKS_OF_SECOND,
        },
        &mut row,
    );
    put(rt, number_of(&w.outcome))?;
    put_time(rt, w.after.clock.time)
}

// The line of a year. Of the digit, the low four bits are its value.
fn put_year(rt: &impl Print, card: Card, year: u16, digit: u8) -> io::Result<()> {
    let days = 360 + u16::from(digit % 16);
    put(rt, year)?;
    put(rt, days)?;
    put_beyond(rt, card, year, days + 1)?;
    put_end(rt, card, year, days)?;
    put(rt, days_before(year))?;
    rt.write_all(b"\n")
}

// The years go round after 9999, so that any input will do.
fn put_years(rt: &impl Print, digits: &[u8]) -> io::Result<()> {
    let card = fresh_card();
    for (i, &digit) in digits.iter().enumerate() {
        put_year(rt, card, ((i + 1) % 10_000) as u16, digit)?;
    }
    Ok(())
}

// One reading takes all of it. A read that fails gives nothing; a write that fails is the end.
fn main(rt: HostRuntime) -> io::Result<()> {
    let mut digits = [0u8; 65536];
    let n = rt.reader().read(&mut digits).unwrap_or(0);
    put_years(&rt, &digits[..n])
}
