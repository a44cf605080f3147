// The receipt of a durable write (store-io's io.rs: receipt_for).
ghost use Rattle.std.specs.Prelude.{◌≡◌};
ghost use Rattle.model.specs.State.{receipt_made};

use completion::{DurableReceipt, WriteTicket};
use model::Opening;

// The receipt for a ticket, of a flush result's need (io.rs's receipt_for).
pub fn receipt_for(o: Opening, t: WriteTicket, need: u64) -> DurableReceipt
    ensures { result ≡ receipt_made o t need }
{
    DurableReceipt {
        volume: t.volume,
        region: t.region,
        generation: t.generation,
        class: o.class,
        label: o.label,
        start: t.start,
        through: t.end,
        untorn: false,
        need,
        prefix: false,
        synced: need != 0 && need != 18446744073709551615,
        epoch: t.epoch,
    }
}
