// The settings: what packets set, and what is saved; and whether the jam may stand beside them.
ghost use Rattle.std.specs.Prelude.{◌≡◌};
ghost use Rattle.parts.specs.Settings.{settings_lawful, jam_fits, applied};

use wire::packets::{
    ClockSource, Format, Generator, Modulation, Packet, mode_means, offset_fits, offset_large,
    pair_means,
};

#[derive(Clone, Copy, Debug, PartialEq, Eq)]
pub struct Settings {
    pub mode: u8,
    pub format: Format,
    pub modulation: Modulation,
    pub clock: ClockSource,
    pub generator: Generator,
    pub offset: i32,
}

// Whether settings are lawful: a mode with a meaning, no forbidden pair, an offset of at most seven digits.
#[tactic(auto, unfolding(crate::specs::Settings::settings_lawful))]
pub fn settings_fit(s: Settings) -> bool
    ensures { result ≡ settings_lawful s }
{
    s.mode < 8 && mode_means(s.mode) && pair_means(s.format, s.modulation) && offset_fits(s.offset)
}

// Whether the jam, on or off, may stand beside settings: not on beside a large offset.
pub fn jam_fits(jam: bool, s: Settings) -> bool
    ensures { result ≡ jam_fits jam s }
{
    !(jam && offset_large(s.offset))
}

// The settings with what a packet says.
pub fn apply(p: Packet, s: Settings) -> Settings
    ensures { result ≡ applied p s }
{
    match p {
        Packet::A(mode) => Settings { mode, ..s },
        Packet::G(offset) => Settings { offset, ..s },
        Packet::H(format, modulation) => Settings {
            format,
            modulation,
            ..s
        },
        Packet::I(clock) => Settings { clock, ..s },
        Packet::K(generator) => Settings { generator, ..s },
    }
}
