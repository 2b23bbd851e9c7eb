// Saved settings of a card: five bytes, and back.
ghost use Rattle.std.specs.Prelude.{◌≡◌, length};
ghost use Rattle.wire.specs.Numbers.{answered};
ghost use Rattle.card.specs.Saved.{save_refusal, row_saved, settings_kept, load as loaded};

use crate::card::Card;
use crate::lawful::is_lawful;
use parts::saved::{load_settings, put_settings};
use parts::settings::{Settings, jam_fits};
use wire::numbers::{Answer, Refusal};

// The card with other settings: 25 for a large offset with the jam on.
#[tactic(auto, using(wire::proofs::numbers::Names::names))]
fn keep_settings(card: Card, settings: Settings) -> Answer<Card, ()>
    ensures { result ≡ settings_kept card settings }
{
    if !jam_fits(card.jam, settings) {
        return Answer::refused(card, Refusal::JamOn);
    }
    Answer::done(Card { settings, ..card }, ())
}

// A card's settings, saved at the front of a row: 18 for a card that is not lawful, 14 where the row is too short. Places behind them, and the
// whole row beside a refusal, stay as they were.
#[tactic(auto, using(crate::proofs::saved::Calls::save_18, crate::proofs::saved::Calls::row_18, crate::proofs::saved::Calls::save_puts))]
pub fn save(card: Card, row: &mut [u8]) -> Result<(), Refusal>
    ensures { (result ≡ answered (save_refusal card (length row.old)) tt) × (row.new ≡ row_saved card row.old) }
{
    if !is_lawful(card) {
        return Err(Refusal::Unlawful);
    }
    put_settings(card.settings, row)
}

// The card with the settings that bytes save: 18 for a card that is not lawful, 19 for bytes that are no saved form, 25 for a large offset with the jam on. Nothing
// else changes; the jam stays.
#[tactic(auto, using(crate::proofs::saved::Calls::load_18, crate::proofs::saved::Calls::load_none, crate::proofs::saved::Calls::load_some))]
pub fn load(card: Card, bytes: &[u8]) -> Answer<Card, ()>
    ensures { result ≡ loaded card bytes.now }
{
    if !is_lawful(card) {
        return Answer::refused(card, Refusal::Unlawful);
    }
    match load_settings(bytes) {
        Some(settings) => keep_settings(card, settings),
        None => Answer::refused(card, Refusal::NotSaved),
    }
}
