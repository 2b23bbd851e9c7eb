// The queue read as one packet.
ghost use Rattle.std.specs.Prelude.{◌≡◌, ◌≤◌};
ghost use Rattle.wire.specs.Numbers.{answered};
ghost use Rattle.wire.specs.Packets.{packet_in};
ghost use Rattle.parts.specs.Queues.{queued};
ghost use Rattle.parts.specs.Settings.{applied};
ghost use Rattle.card.specs.Packets.{ack_refusal, acknowledged};

use crate::card::Card;
use parts::queue::{Queue, empty_queue};
use parts::settings::{Settings, apply};
use wire::numbers::{Answer, Refusal};
use wire::packets::read_packet;

// The settings with what a queue says, taken as one packet with the jam on or off.
fn take(jam: bool, queue: Queue, settings: Settings) -> Result<Settings, Refusal>
    requires { queue.fill ≤ 64 }
    ensures { result ≡ answered (ack_refusal jam (queued queue)) (applied (packet_in (queued queue)) settings) }
{
    let read = read_packet(&queue.bytes[..queue.fill])?;
    if jam && read.needs_jam_off {
        return Err(Refusal::JamOn);
    }
    Ok(apply(read.packet, settings))
}

// Writing ACK: bit 0 clears the done bit; bit 7 then has the queue read as one packet, which leaves the done bit set or clear whatever bit 0 did. A refused packet
// touches no setting.
#[tactic(auto, using(crate::proofs::packets::Laws::takes_packet, crate::proofs::packets::Laws::takes_refusal, crate::proofs::packets::Laws::clears_done, crate::proofs::packets::Laws::keeps_done))]
pub(crate) fn acknowledge(card: Card, value: u16) -> Answer<Card, ()>
    requires { card.queue.fill ≤ 64 }
    ensures { result ≡ acknowledged card value }
{
    let mut c = card;
    let mut outcome = Ok(());
    if value / 128 % 2 == 1 {
        c.queue = empty_queue();
        match take(card.jam, card.queue, card.settings) {
            Ok(settings) => {
                c.settings = settings;
                c.done = true;
            }
            Err(refusal) => {
                c.done = false;
                outcome = Err(refusal);
            }
        }
    } else if value % 2 == 1 {
        c.done = false;
    }
    Answer { after: c, outcome }
}
