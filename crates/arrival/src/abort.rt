// An operation whose first piece was refused is undone (store-io's optable.rs: abort).
ghost use Rattle.std.specs.Prelude.{◌≡◌, ℕ, List, slice_set};
ghost use Rattle.model.specs.Opening.{Plan};
ghost use Rattle.step.specs.Rules.{range_of, op_of};
ghost use Rattle.step.specs.Step.{row_of, rejection as rejectionOf};
ghost use Rattle.arrival.specs.Carried.{pushed, owner_word, TouchedBy};
ghost use Rattle.settle.specs.declared.Finished.TheVariants as Finished;

use completion::{Held, Range, Refusal, Reply};
use domain::{Op, OsError};
use memory::liveregion::LiveRegion;
use model::{Awaits, Kind, Row};
use optable::Frees;
use optable::touched::Touched;

// The reply to a refused first piece: the host gets Io or QueueFull, the range, and its buffer.
fn reject(id: u64, kind: Kind, raw: Option<OsError>, buf: Option<Held>) -> Reply
    ensures { (g : Plan) → g.id ≡ id → result ≡ Reply.Rejected (range_of g kind) (op_of kind) raw buf }
{
    match kind {
        Kind::Page { start, end } => Reply::Rejected {
            range: Range {
                region: id,
                start,
                end,
            },
            op: Op::Write,
            raw,
            buf,
        },
        Kind::Read { start, end } => Reply::Rejected {
            range: Range {
                region: id,
                start,
                end,
            },
            op: Op::Read,
            raw,
            buf,
        },
    }
}

// .. of a row that awaits a piece; only such a row's is refused.
fn rejection(id: u64, awaits: Awaits, raw: Option<OsError>, buf: Option<Held>) -> Reply
    ensures { (g : Plan) → g.id ≡ id → result ≡ rejectionOf g awaits raw buf }
{
    match awaits {
        Awaits::Piece(kind, _) => reject(id, kind, raw, buf),
        _ => Reply::No(Refusal::NotAwaited),
    }
}

// Its first piece was refused (abort): its row is free again at the same generation, and the host gets its buffer.
pub fn abort(
    raw: Option<OsError>,
    buf: Option<Held>,
    qtag: u64,
    row: Row,
    g: LiveRegion,
    live: u64,
    free: &mut [u64],
    owners: &mut [u64],
) -> Touched
    ensures { ((store : List ℕ) → TouchedBy (Finished.Rejected raw buf) qtag row g store result)
        × (free.new ≡ pushed live (row_of qtag) free.old)
        × (owners.new ≡ slice_set owners.old row.buffer (owner_word 0 buf)) }
{
    crate::release::push(free, live, qtag % 0x1_0000_0000);
    crate::release::own(owners, row.buffer, 0, buf);
    Touched {
        row: optable::freed_row(row.generation),
        accepts: false,
        frees: Frees::Rejected,
        reply: rejection(g.id, row.awaits, raw, buf),
    }
}
