// Pending bits: 0 event, 1 periodic, 2 strobe, 3 second, 4 output packet.
ghost use Rattle.std.specs.Prelude.{◌≡◌, true};
ghost use Rattle.parts.specs.Interrupts.{sources_raised};
ghost use Rattle.parts.specs.Pending.{raised, cleared, meet};

// Pending bits with that of an event raised.
#[tactic(auto, using(crate::proofs::pending::Bits::event_by_or))]
pub(crate) fn with_event(pending: u8) -> u8
    ensures { result ≡ raised 1 true pending }
{
    pending | 1
}

// Pending bits with those of the sources that fell raised.
#[tactic(auto, using(crate::proofs::pending::Bits::sources_by_or))]
pub(crate) fn with_sources(pending: u8, periodic: bool, strobe: bool, second: bool) -> u8
    ensures { result ≡ sources_raised periodic strobe second pending }
{
    pending | u8::from(periodic) << 1 | u8::from(strobe) << 2 | u8::from(second) << 3
}

// Pending bits without those that are set in a value.
#[tactic(auto, using(crate::proofs::pending::Bits::cleared_by_and))]
pub(crate) fn clear(value: u16, pending: u8) -> u8
    ensures { result ≡ cleared value pending }
{
    pending & !((value % 32) as u8)
}

// Whether some bit, 0 to 4, is set in both.
#[tactic(auto, using(crate::proofs::pending::Bits::meet_by_and))]
pub(crate) fn some_meet(a: u8, b: u8) -> bool
    ensures { result ≡ meet a b }
{
    a & b & 31 != 0
}
