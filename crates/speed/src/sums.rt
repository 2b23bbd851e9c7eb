// Checksums: what the calls of a loop answered, mixed into one number, so that none of them can be left out.
use card::card::Card;
use card::registers::read_register;
use card::saved::save;
use card::waiting::{Waited, wait};
use wire::numbers::{Refusal, number_of};
use wire::time::{TICKS_OF_SECOND, Ticks};

// A sum with one more answer, of any width.
pub(crate) fn mixed(sum: u64, answer: impl Into<u64>) -> u64 {
    let answer: u64 = answer.into();
    sum % 4_294_967_296 * 31 + answer % 4_294_967_296
}

// The last record that stands in a row.
fn last_record(row: &[u64], written: usize) -> u64 {
    match row.get(..written) {
        Some([.., last]) => *last,
        _ => 0,
    }
}

// A sum with a wait: its number, the ticks passed, the records written and the last of them.
pub(crate) fn with_wait(sum: u64, outcome: Result<Waited, Refusal>, row: &[u64]) -> u64 {
    let sum = mixed(sum, number_of(&outcome));
    let waited = outcome.unwrap_or(Waited {
        passed: Ticks { ticks: 0 },
        written: 0,
    });
    let sum = mixed(sum, waited.passed.ticks);
    let sum = mixed(sum, waited.written as u64);
    mixed(sum, last_record(row, waited.written))
}

// A sum with the registers 1 to 17, as they read.
fn with_registers(mut sum: u64, card: Card) -> u64 {
    for reg in 1..18 {
        let read = read_register(card, reg);
        sum = mixed(sum, number_of(&read.outcome));
        sum = mixed(sum, read.outcome.unwrap_or(0));
    }
    sum
}

// A sum with the saved form of the settings.
fn with_settings(sum: u64, card: Card) -> u64 {
    let mut form = [0u8; 5];
    let number = number_of(&save(card, &mut form));
    form.iter()
        .fold(mixed(sum, number), |sum, &b| mixed(sum, b))
}

// A sum with the next falls, which tell strobe and periodic output.
fn with_falls(sum: u64, card: Card) -> u64 {
    let mut row = [0u64; 4];
    let w = wait(
        card,
        Ticks {
            ticks: TICKS_OF_SECOND,
        },
        &mut row,
    );
    with_wait(sum, w.outcome, &row)
}

// A sum with all that registers, a time request, the saved form and a wait show of a card.
pub(crate) fn with_card(sum: u64, card: Card) -> u64 {
    let sum = with_settings(sum, card);
    let sum = with_falls(sum, card);
    let sum = with_registers(sum, card);
    let latched = read_register(card, 0).after;
    with_registers(sum, latched)
}
