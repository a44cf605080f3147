// Whether the table has room, the row of an accepted operation and its tag (store-io's optable.rs: full, claim, start).
ghost use Rattle.std.specs.Prelude.{◌≡◌, ◌+◌, not, nat_lt};
ghost use Rattle.regionmap.specs.Found.{wrap64};
ghost use Rattle.step.specs.Step.{queue_tag, claimed_by, durable_as};

use model::{Awaits, Counts, Kind, Request, Row, Split};

// Whether live + ready has reached the depth (Table::full); no sum is made, so none wraps.
pub fn full(c: Counts, depth: u64) -> bool
    ensures { result ≡ not (nat_lt (c.live + c.ready) depth) }
{
    depth.saturating_sub(c.ready) <= c.live
}

// "Queue tag = row + generation × 2^32" (Table::claim); wrapping where a row has more than 32 bits.
pub fn queue_tag(row: u64, generation: u32) -> u64
    ensures { result ≡ wrap64 (queue_tag row generation) }
{
    row.wrapping_add(generation as u64 * 0x1_0000_0000)
}

// Plain or durable; a read's mark is ignored.
fn durable_as(kind: Kind, durable: bool) -> bool
    ensures { result ≡ durable_as kind durable }
{
    match kind {
        Kind::Page { .. } => durable,
        Kind::Read { .. } => false,
    }
}

// The row of an accepted operation (Table::start and set_split): it awaits its first piece.
pub fn start(generation: u32, seq: u64, kind: Kind, q: Request) -> Row
    ensures { result ≡ claimed_by generation seq kind q }
{
    Row {
        generation,
        tag: q.tag,
        seq,
        handle: q.handle,
        buffer: q.buffer,
        durable: durable_as(kind, q.durable),
        awaits: Awaits::Piece(
            kind,
            Split {
                total: q.length,
                done: 0,
            },
        ),
    }
}
