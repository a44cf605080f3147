// A write that is written: its ticket, and how it goes on or ends (store-io's io.rs: ticket; optable.rs: conclude). Each function is the
// definition of its name in step's Rules.
ghost use Rattle.std.specs.Prelude.{◌≡◌, ◌^◌, ◌<◌};
ghost use Rattle.regionmap.specs.Map.{Map};
ghost use Rattle.step.specs.Rules.{ticket_of, unflushed, written_as};
ghost use Rattle.settle.specs.Finished.{turned_by, plan_with, Tells};
ghost use Rattle.model.specs.declared.Kind.TheVariants as Kind;

use crate::{End, Finished, Turn};
use completion::{Held, Outcome, WriteTicket};
use domain::FirstCause;
use memory::liveregion::LiveRegion;
use model::{Awaits, Opening};
use regionmap::Position;

// The ticket of a write that is written (io.rs's ticket); the region's generation has 32 bits.
pub fn ticket(
    o: Opening,
    g: LiveRegion,
    start: Position,
    end: Position,
    flushes: u64,
) -> WriteTicket
    ensures { (m : Map) → g.generation < 2 ^ 32 → result ≡ ticket_of o (plan_with g m) (Kind.Page start end) flushes }
{
    let generation = (g.generation % 4294967296) as u32;
    let raised = domain::ticket(flushes);
    WriteTicket {
        volume: o.volume,
        region: g.id,
        generation,
        start,
        end,
        need: raised,
        epoch: o.epoch,
    }
}

// A durable write without a flush: Poisoned if the store is, else a receipt of need 2^64 - 1.
fn unflushed_outcome(o: Opening, first: Option<FirstCause>, t: WriteTicket) -> Outcome
    ensures { result ≡ unflushed o first t }
{
    match first {
        None => Outcome::Receipt(t, region::receipt::receipt_for(o, t, 0xffff_ffff_ffff_ffff)),
        Some(cause) => Outcome::Poisoned(cause),
    }
}

// A write that is written (Table::conclude): plain ends there; durable awaits its flush, or ends without one.
pub fn conclude(
    o: Opening,
    forced: bool,
    first: Option<FirstCause>,
    durable: bool,
    t: WriteTicket,
    buf: Option<Held>,
    turn: Turn,
) -> Finished
    ensures { Tells result (λ bytes. written_as o forced first durable t buf (turned_by turn bytes)) }
{
    if !durable {
        return Finished::Ended(End {
            outcome: Outcome::Written(t),
            buf,
            turn,
            cause: None,
        });
    }
    if o.flush || forced {
        return Finished::Next {
            awaits: Awaits::Flush(t),
            turn,
        };
    }
    Finished::Ended(End {
        outcome: unflushed_outcome(o, first, t),
        buf,
        turn,
        cause: None,
    })
}
