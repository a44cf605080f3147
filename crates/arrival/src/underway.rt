// What becomes of the operation in a row when an answer or a flush result arrives under a tag (store-io's optable.rs: finish and flushed, as
// they find the row and the piece under way).
ghost use Rattle.std.specs.Prelude.{◌≡◌};
ghost use Rattle.step.specs.Step.{names};
ghost use Rattle.arrival.specs.UnderWay.{known_as, UnderWay, FinishedIn, FlushedIn};

use completion::Refusal;
use memory::liveregion::LiveRegion;
use model::{Awaits, Opening, Row};
use platform::{Answer, Flushed};
use settle::Finished;

// "Does the tag name a live row with its generation?"
fn named(row: Row, qtag: u64) -> bool
    ensures { result ≡ names row qtag }
{
    let current = row.generation as u64 == qtag / 0x1_0000_0000;
    match row.awaits {
        Awaits::Nothing => false,
        _ => current,
    }
}

// Whether a tag names a row of the table: row memory may be longer than the depth.
fn known(o: Opening, row: Row, qtag: u64) -> bool
    ensures { result ≡ known_as o row qtag }
{
    if qtag % 0x1_0000_0000 < o.depth {
        return named(row, qtag);
    }
    false
}

// The length of the piece under way; 0 where none is.
fn under_way(store: &[u64], row: Row) -> u64
    ensures { UnderWay store.now row.handle row.awaits result }
{
    match row.awaits {
        Awaits::Piece(kind, split) => crate::advance::piece_of(
            store, row.handle, kind, split,
        ).count,
        _ => 0,
    }
}

// What becomes of the operation in a row when an answer arrives under a tag.
pub fn finished(
    qtag: u64,
    o: Opening,
    g: LiveRegion,
    row: Row,
    answer: Answer,
    back: bool,
    flushes: u64,
    store: &[u64],
) -> Finished
    ensures { FinishedIn qtag o g row answer back flushes store.now result }
{
    if !known(o, row, qtag) {
        return Finished::Away(Refusal::UnknownTag);
    }
    let first = memory::liveregion::poisoned(store);
    let piece = under_way(store, row);
    settle::finish::finish(o, g, first, row, piece, answer, back, flushes)
}

// .. and when a flush result does.
pub fn flush_finished(qtag: u64, o: Opening, row: Row, res: Flushed) -> Finished
    ensures { FlushedIn qtag o row res result }
{
    if !known(o, row, qtag) {
        return Finished::Away(Refusal::UnknownTag);
    }
    settle::flushed::flushed(o, row, res)
}
