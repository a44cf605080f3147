// An answer or a flush result arrives, on a table in what is lent (store-io's submitter/mod.rs: the arms that answer a queue tag), and a
// completion is taken. The row that the tag names is given; settle says what becomes of its operation, and that is carried into the table.
//
// abort     an operation whose first piece was refused is undone
// advance   an operation goes on
// carry     which of these, by what becomes of the operation
// release   an operation is over
// take      the oldest completion is taken
// underway  which operation it is, and which piece is under way
#![tactic(auto)]

pub mod abort;
pub mod advance;
pub mod carry;
pub mod release;
pub mod take;
pub mod underway;

ghost use Rattle.std.specs.Prelude.{◌≡◌};
ghost use Rattle.memory.specs.Words.{SameWords};
ghost use Rattle.arrival.specs.Arrived.{arrived_call, BecomesIn};
ghost use Rattle.arrival.specs.Lent.{ArmIn};

use memory::liveregion::LiveRegion;
use memory::words::Words;
use model::{Call, Counts, Opening, Row};
use optable::touched::Touched;
use platform::{Answer, Flushed};
use settle::Finished;

// What arrives under a queue tag: an answer, with whether the buffer came back and the host's flush count, or a flush result.
#[derive(Clone, Copy)]
pub enum Arrived {
    Answer {
        answer: Answer,
        back: bool,
        flushes: u64,
    },
    Flushed(Flushed),
}

// The call by which it arrives.
pub fn call_of(qtag: u64, what: Arrived) -> Call
    ensures { result ≡ arrived_call qtag what }
{
    match what {
        Arrived::Answer {
            answer,
            back,
            flushes,
        } => Call::Answer {
            qtag,
            answer,
            back,
            flushes,
        },
        Arrived::Flushed(result) => Call::Flushed { qtag, result },
    }
}

// What becomes of the operation in the row.
fn becomes(what: Arrived, qtag: u64, o: Opening, g: LiveRegion, row: Row, store: &[u64]) -> Finished
    ensures { BecomesIn what qtag o g row store.now result }
{
    match what {
        Arrived::Answer {
            answer,
            back,
            flushes,
        } => crate::underway::finished(qtag, o, g, row, answer, back, flushes, store),
        Arrived::Flushed(result) => crate::underway::flush_finished(qtag, o, row, result),
    }
}

// An answer or a flush result arrives.
pub fn arrive(
    qtag: u64,
    what: Arrived,
    row: Row,
    counts: Counts,
    rows: usize,
    words: &mut Words,
    pool: &mut [u8],
) -> Touched
    ensures same { SameWords words.old words.new }
    ensures arm { ArmIn (arrived_call qtag what) row counts rows words.old pool.old result words.new pool.new }
{
    let seen = words.view();
    let o = memory::settings::settings(seen.store);
    let g = memory::liveregion::region_at(seen.store, row.handle);
    let f = becomes(what, qtag, o, g, row, seen.store);
    crate::carry::carry(f, qtag, row, o, g, counts, words, pool)
}
