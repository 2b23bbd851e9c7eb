// Loops of calls that ask a card. What was answered last says which of two cards is asked next.
use crate::sums::mixed;
use card::card::Card;
use card::lawful::is_lawful;
use card::registers::interrupt_line;

// Whether cards are lawful: the first that is not would end the loop.
pub(crate) fn lawfuls(cards: [Card; 2], times: usize) -> u64 {
    let mut sum: u64 = 7;
    for _ in 0..times {
        let card = cards[(sum % 2) as usize];
        if !is_lawful(card) {
            return sum;
        }
        sum = mixed(sum, 1u8);
    }
    sum
}

// Their interrupt lines.
pub(crate) fn lines(cards: [Card; 2], times: usize) -> u64 {
    let mut sum: u64 = 7;
    for _ in 0..times {
        let card = cards[(sum % 2) as usize];
        let (level, vector) = match interrupt_line(card) {
            Ok(Some(request)) => (request.level, request.vector),
            _ => (0, 0),
        };
        sum = mixed(mixed(sum, level), vector);
    }
    sum
}
