// The interrupt registers.
ghost use Rattle.std.specs.Prelude.{◌≡◌};
ghost use Rattle.parts.specs.Interrupts.{with_pending, interrupts_lawful, interrupts_written, event_raised, sources_raised, line_up};

use crate::pending::{clear, some_meet, with_event, with_sources};

// MASK, the pending bits, LEVEL and VECTOR.
#[derive(Clone, Copy, Debug, PartialEq, Eq)]
pub struct Interrupts {
    pub mask: u8,
    pub pending: u8,
    pub level: u8,
    pub vector: u8,
}

// Whether they are lawful: mask and pending bits 0 to 4, level bits 0 to 2.
#[tactic(auto, unfolding(crate::specs::Interrupts::interrupts_lawful))]
pub fn interrupts_fit(i: Interrupts) -> bool
    ensures { result ≡ interrupts_lawful i }
{
    i.mask < 32 && i.pending < 32 && i.level < 8
}

// The interrupt registers after writing one of them: MASK, INTSTAT, LEVEL or VECTOR. A register of any other number leaves them.
#[tactic(auto, unfolding(crate::specs::Interrupts::interrupts_written))]
pub fn write_interrupts(interrupts: Interrupts, reg: u8, value: u16) -> Interrupts
    ensures { result ≡ interrupts_written interrupts reg value }
{
    match reg {
        14 => Interrupts {
            mask: (value % 32) as u8,
            ..interrupts
        },
        15 => Interrupts {
            pending: clear(value, interrupts.pending),
            ..interrupts
        },
        16 => Interrupts {
            level: (value % 8) as u8,
            ..interrupts
        },
        17 => Interrupts {
            vector: (value % 256) as u8,
            ..interrupts
        },
        _ => interrupts,
    }
}

// The same with the pending bit of an event raised.
pub fn raise_event(interrupts: Interrupts) -> Interrupts
    ensures { result ≡ event_raised interrupts }
{
    Interrupts {
        pending: with_event(interrupts.pending),
        ..interrupts
    }
}

// The same with the pending bits of the sources that fell raised.
pub fn raise_sources(
    interrupts: Interrupts,
    periodic: bool,
    strobe: bool,
    second: bool,
) -> Interrupts
    ensures { result ≡ with_pending interrupts (sources_raised periodic strobe second interrupts.pending) }
{
    Interrupts {
        pending: with_sources(interrupts.pending, periodic, strobe, second),
        ..interrupts
    }
}

// Whether LEVEL is not 0 and some pending bit is also set in MASK.
#[tactic(auto, unfolding(crate::specs::Interrupts::line_up))]
pub fn is_up(i: Interrupts) -> bool
    ensures { result ≡ line_up i }
{
    i.level != 0 && some_meet(i.pending, i.mask)
}
