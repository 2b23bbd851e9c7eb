// Refusals, each by its name, with the number that the page gives it. Every crate takes them from here.
ghost use Rattle.std.specs.Prelude.{◌≡◌, Ok, Err};
ghost use Rattle.wire.specs.Numbers.{number, number_of};

// Why a call refuses what it is handed.
#[derive(Clone, Copy, Debug, PartialEq, Eq)]
pub enum Refusal {
    NoRegister = 1,
    WrongDirection = 2,
    QueueFull = 3,
    NoStart = 4,
    TooLong = 5,
    NoEnd = 6,
    UnknownId = 7,
    WrongLength = 8,
    WrongByte = 9,
    NoMeaning = 10,
    OutsideTime = 11,
    OutsideDivider = 12,
    OutsideStrobe = 13,
    ShortRow = 14,
    OverADay = 15,
    Past9999 = 16,
    BadDigit = 17,
    Unlawful = 18,
    NotSaved = 19,
    OutsideSwitch = 20,
    OutsidePeriod = 21,
    WrongMarker = 22,
    SpareSet = 23,
    SecondsDiffer = 24,
    JamOn = 25,
}

impl Refusal {
    // The number of its line in the table.
    pub fn number(self) -> u8
        ensures { result ≡ number self }
    {
        self as u8
    }
}

// What a call that changes something answers: what is there afterwards, and what it gives or why it refuses.
#[derive(Clone, Copy)]
pub struct Answer<S, T> {
    pub after: S,
    pub outcome: Result<T, Refusal>,
}

impl<S, T> Answer<S, T> {
    // The answer of a call that was done.
    pub fn done(after: S, given: T) -> Self
        ensures { result ≡ record { after = after; outcome = Ok given } }
    {
        Answer {
            after,
            outcome: Ok(given),
        }
    }

    // The answer of one that was refused.
    pub fn refused(after: S, refusal: Refusal) -> Self
        ensures { result ≡ record { after = after; outcome = Err refusal } }
    {
        Answer {
            after,
            outcome: Err(refusal),
        }
    }
}

// The number of an outcome: 0 if the call was done, else that of its refusal.
pub fn number_of<T>(outcome: &Result<T, Refusal>) -> u8
    ensures { result ≡ number_of outcome.now }
{
    match outcome {
        Ok(_) => 0,
        Err(refusal) => refusal.number(),
    }
}
