// Time words: a day and a tick of day as five words of four decimal digits, and back.
ghost use Rattle.std.specs.Prelude.{◌≡◌, ◌++◌, ◌<◌, take};
ghost use Rattle.wire.specs.Digits.{digits, num, below, unpacked};
ghost use Rattle.wire.specs.Time.{ticks_of_day, whole_seconds};
ghost use Rattle.wire.specs.Words.{pairs_of, words_of, writable, words_or_zero, write_words, decimal, in_range, read_words};

use crate::digits::{pair, split, two};
use crate::numbers::Refusal;
use crate::time::{TICKS_OF_DAY, TICKS_OF_SECOND, Ticks, tick_at};

// A day in shares of a hundred days, rounded up, as the next three are, so that no whole unit is counted short.
const DAY_IN_HUNDREDS: u64 = 1_407_374_883_554;

// A second in shares of an hour.
const SECOND_IN_HOURS: u64 = 39_093_746_766;

// A tenth of a tick in shares of a hundredth of a second.
const TENTH_IN_HUNDREDTHS: u64 = 140_737_489;

// A block of 128 ticks in shares of a second.
const BLOCK_IN_SECONDS: u64 = 1_801_439_851;

// A day and a tick of that day: what five words write.
#[derive(Clone, Copy, Debug, PartialEq, Eq, PartialOrd, Ord)]
pub struct Moment {
    pub day: u16,
    pub tick: Ticks,
}

#[tactic(auto, unfolding(crate::specs::Words::writable))]
fn is_writable(day: u16, tick: u64) -> bool
    ensures { result ≡ writable day tick }
{
    (1..=366).contains(&day) && tick < TICKS_OF_DAY
}

// The word of two pairs of digits.
#[tactic(auto, using(crate::proofs::words::Laws::word_of_pairs))]
fn word(high: u64, low: u64) -> u16
    requires { (high < 100) × (low < 100) }
    ensures { result ≡ num 16 (digits 10 2 high ++ digits 10 2 low) }
{
    pair(high) * 256 + pair(low)
}

// A day of at most three digits, and a tick of a day. `write_words` asks for more before it makes one.
#[derive(Clone, Copy)]
struct InYear {
    day: u64,
    tick: u64,
    ghost day_small: { day < 1000 },
    ghost tick_small: { tick < ticks_of_day },
}

impl InYear {
    // The whole seconds in a tick of day, counted by blocks of 128 ticks: 78,125 of them make a second, so what is less than a block decides nothing.
    #[tactic(auto, using(crate::proofs::words::Pairs::seconds_in_blocks))]
    fn whole_seconds(self) -> u64
        ensures { result ≡ whole_seconds self.tick }
    {
        split((self.tick >> 7) * BLOCK_IN_SECONDS).count
    }

    // The ten pairs of digits of a time, as numbers; the first pair is spare. The day, the second of the day and the fraction of the second are each split from the highest pair
    // down. The fraction is in tenths of a tick, since its last digit is spare too.
    fn count_pairs(self) -> [u64; 10]
        ensures { result ≡ pairs_of self.day self.tick }
    {
        let whole = self.whole_seconds();
        let tenths = (self.tick - whole * TICKS_OF_SECOND) * 10;
        let hundreds = split(self.day * DAY_IN_HUNDREDS);
        let days = split(hundreds.rest * 100);
        let hours = split(whole * SECOND_IN_HOURS);
        let minutes = split(hours.rest * 60);
        let seconds = split(minutes.rest * 60);
        let hundredths = split(tenths * TENTH_IN_HUNDREDTHS);
        let ten_thousandths = split(hundredths.rest * 100);
        let millionths = split(ten_thousandths.rest * 100);
        let last = split(millionths.rest * 100);
        [
            0,
            hundreds.count,
            days.count,
            hours.count,
            minutes.count,
            seconds.count,
            hundredths.count,
            ten_thousandths.count,
            millionths.count,
            last.count,
        ]
    }

    // The words of a time.
    #[tactic(auto, using(crate::proofs::words::Laws::pair_below, crate::proofs::words::Laws::five_words))]
    fn pack(self) -> [u16; 5]
        ensures { result ≡ words_of self.day self.tick }
    {
        let n = self.count_pairs();
        [
            word(n[0], n[1]),
            word(n[2], n[3]),
            word(n[4], n[5]),
            word(n[6], n[7]),
            word(n[8], n[9]),
        ]
    }
}

// Words for a day and a tick of day: 11 where either is outside its range.
#[tactic(auto, using(crate::proofs::words::Laws::writable_day, crate::proofs::words::Laws::writable_tick, crate::proofs::words::RoundTrip::written_within, crate::proofs::words::RoundTrip::written_outside))]
pub fn write_words(day: u16, tick: Ticks) -> Result<[u16; 5], Refusal>
    ensures { result ≡ write_words day tick.ticks }
{
    if is_writable(day, tick.ticks) {
        let time = InYear {
            day: u64::from(day),
            tick: tick.ticks,
        };
        Ok(time.pack())
    } else {
        Err(Refusal::OutsideTime)
    }
}

// The words alone: five zero words, which no time has, where `write_words` refuses.
#[tactic(auto, using(crate::proofs::words::RoundTrip::words_alone))]
pub fn words_of(day: u16, tick: Ticks) -> [u16; 5]
    ensures { result ≡ words_or_zero day tick.ticks }
{
    write_words(day, tick).unwrap_or([0; 5])
}

// No digit of the word is above 9.
#[tactic(auto, unfolding(crate::specs::Digits::digits, crate::specs::Digits::below))]
fn four_digits(w: u16) -> bool
    ensures { result ≡ below 10 (digits 16 4 w) }
{
    w / 4096 % 16 < 10 && w / 256 % 16 < 10 && w / 16 % 16 < 10 && w % 16 < 10
}

// No digit of the five words is above 9, and no spare one set. The first word has three spare digits, so it is below 10 as a whole.
#[tactic(auto, using(crate::proofs::words::Laws::tested_words))]
fn all_digits(words: [u16; 5]) -> bool
    ensures { result ≡ decimal (unpacked 16 4 words) }
{
    let [a, b, c, d, e] = words;
    a < 10 && four_digits(b) && four_digits(c) && four_digits(d) && four_digits(e) && e % 16 == 0
}

#[tactic(auto, unfolding(crate::specs::Words::in_range))]
fn is_in_range(day: u16, hour: u16, minute: u16, second: u16) -> bool
    ensures { result ≡ in_range day hour minute second }
{
    (1..=366).contains(&day) && hour <= 23 && minute <= 59 && second <= 59
}

// The seven digits of the fraction, in the last two words.
#[tactic(auto, using(crate::proofs::words::Laws::fraction_by_pairs))]
fn fraction(d: u16, e: u16) -> u32
    ensures { result ≡ num 10 (digits 16 4 d ++ take 3 (digits 16 4 e)) }
{
    let high = u32::from(two(d / 256)) * 100_000 + u32::from(two(d % 256)) * 1_000;
    high + u32::from(two(e / 256)) * 10 + u32::from(e % 256 / 16)
}

// The day and the tick of day that five words write: 17 for a digit above 9 or a set spare one anywhere, and only then 11 for a field
// outside its range.
#[tactic(auto, using(crate::proofs::words::Laws::words_bad, crate::proofs::words::Laws::words_outside, crate::proofs::words::Laws::words_read))]
pub fn read_words(words: [u16; 5]) -> Result<Moment, Refusal>
    ensures { result ≡ read_words words }
{
    if !all_digits(words) {
        return Err(Refusal::BadDigit);
    }
    let [a, b, c, d, e] = words;
    let day = a % 16 * 100 + two(b / 256);
    let hour = two(b % 256);
    let minute = two(c / 256);
    let second = two(c % 256);
    if !is_in_range(day, hour, minute, second) {
        return Err(Refusal::OutsideTime);
    }
    Ok(Moment {
        day,
        tick: tick_at(hour, minute, second, fraction(d, e)),
    })
}
