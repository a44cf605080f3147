// An operation goes on: its buffer's bytes turn, and it awaits its next piece or its flush (store-io's optable.rs: finish).
ghost use Rattle.std.specs.Prelude.{◌≡◌, ◌+◌, ◌-◌};
ghost use Rattle.memory.specs.declared.liveregion.LiveRegion.{LiveRegion};
ghost use Rattle.regionmap.specs.Found.{wrap64};
ghost use Rattle.memory.specs.Piece.{PieceIn};
ghost use Rattle.step.specs.Rules.{first_of};
ghost use Rattle.step.specs.Step.{awaits_now};
ghost use Rattle.arrival.specs.Carried.{turned_pool, AsksFor, TouchedBy};
ghost use Rattle.settle.specs.declared.Finished.TheVariants as Finished;

use completion::Reply;
use memory::liveregion::LiveRegion;
use model::{Awaits, Kind, Row, Split};
use optable::Frees;
use optable::touched::Touched;
use regionmap::{FoundPiece, Position};
use settle::Turn;

// The buffer's bytes turn where they lie.
pub fn turn(pool: &mut [u8], capacity: u64, buffer: u64, t: Turn)
    ensures { pool.new ≡ turned_pool capacity buffer t pool.old }
{
    iobuf::turn(
        pool,
        capacity as usize,
        buffer as usize,
        t.total as usize,
        t.by as usize,
    );
}

// Where an operation's range starts.
fn first_of(kind: Kind) -> Position
    ensures { result ≡ first_of kind }
{
    match kind {
        Kind::Page { start, .. } => start,
        Kind::Read { start, .. } => start,
    }
}

// The piece of an operation at what is done, of what is left, found in its region's words.
pub fn piece_of(store: &[u64], handle: u64, kind: Kind, s: Split) -> FoundPiece
    ensures { PieceIn store.now handle (wrap64 ((first_of kind).0 + s.done)) (s.total - s.done) result }
{
    let start = first_of(kind);
    let at = Position(start.0.wrapping_add(s.done));
    memory::piece::first_piece(store, handle, at, settle::left(s))
}

// The next piece is asked for.
fn ask_piece(store: &[u64], row: Row, qtag: u64, kind: Kind, s: Split) -> Reply
    ensures { AsksFor store.now row qtag (Awaits.Piece kind s) result }
{
    let piece = piece_of(store, row.handle, kind, s);
    Reply::Piece {
        qtag,
        offset: piece.offset,
        count: piece.count,
        buffer: row.buffer,
    }
}

// What is asked of the host next: the next piece, or the flush.
fn asks_for(store: &[u64], row: Row, qtag: u64, awaits: Awaits) -> Reply
    ensures { AsksFor store.now row qtag awaits result }
{
    match awaits {
        Awaits::Nothing => Reply::Done { qtag },
        Awaits::Piece(kind, split) => ask_piece(store, row, qtag, kind, split),
        Awaits::Flush(t) => Reply::Flush { qtag, need: t.need },
    }
}

// The row as it awaits something else.
#[tactic(auto, unfolding(step::specs::Step::awaits_now))]
fn awaits_now(row: Row, awaits: Awaits) -> Row
    ensures { result ≡ awaits_now row awaits }
{
    Row { awaits, ..row }
}

// An operation goes on: its bytes turn, and it awaits its next piece or its flush.
pub fn go_on(
    awaits: Awaits,
    t: Turn,
    qtag: u64,
    row: Row,
    capacity: u64,
    store: &[u64],
    pool: &mut [u8],
) -> Touched
    ensures { ((g : LiveRegion) → TouchedBy (Finished.Next awaits t) qtag row g store.now result)
        × (pool.new ≡ turned_pool capacity row.buffer t pool.old) }
{
    turn(pool, capacity, row.buffer, t);
    Touched {
        row: awaits_now(row, awaits),
        accepts: false,
        frees: Frees::Nothing,
        reply: asks_for(store, row, qtag, awaits),
    }
}
