// Loops that read a card's registers, each on the card that the last call gave, at a tick that the sum of the answers says.
use crate::changing::at_tick;
use crate::sums::{mixed, with_card};
use card::card::Card;
use card::registers::read_register;

// Reads so many times: a register of each turn's own.
pub(crate) fn reads<R: Fn(usize) -> u8>(mut card: Card, times: usize, register: R) -> u64
    requires { R.IsAlwaysCallable register }
{
    let mut sum: u64 = 7;
    for i in 0..times {
        let v = read_register(at_tick(card, sum), register(i));
        sum = mixed(sum, v.outcome.unwrap_or(0));
        card = v.after;
    }
    with_card(sum, card)
}
