// What a call leaves of the row that it touches and of the counts, and its reply (the arms of store-io's queue_core.rs give it); and where that
// row is.
ghost use Rattle.std.specs.Prelude.{◌≡◌};
ghost use Rattle.optable.specs.Called.{place_of, away_with};
ghost use Rattle.step.specs.Step.{row_of};

use crate::Frees;
use completion::{Refusal, Reply};
use model::{Call, Counts, Row};

// The row as it becomes, whether the counts accept an operation, what they free, and the reply.
#[derive(Clone, Copy)]
pub struct Touched {
    pub row: Row,
    pub accepts: bool,
    pub frees: Frees,
    pub reply: Reply,
}

// A call that is turned away leaves the row and the counts as they were.
pub fn away(row: Row, refusal: Refusal) -> Touched
    ensures { result ≡ away_with row refusal }
{
    Touched {
        row,
        accepts: false,
        frees: Frees::Nothing,
        reply: Reply::No(refusal),
    }
}

// The row that a queue tag names.
fn row_of(qtag: u64) -> u64
    ensures { result ≡ row_of qtag }
{
    qtag % 0x1_0000_0000
}

// The place of the row that a call touches: of a submission the one on top of the free stack, of an answer or a flush result the one that its
// tag names; the other calls touch none, and leave row 0 as it is.
pub fn place(call: Call, counts: Counts, free: &[u64]) -> u64
    ensures { result ≡ place_of call counts free.now }
{
    match call {
        Call::Write(_) => crate::top(free, counts.live),
        Call::ReadPage(_) => crate::top(free, counts.live),
        Call::Answer { qtag, .. } => row_of(qtag),
        Call::Flushed { qtag, .. } => row_of(qtag),
        _ => 0,
    }
}
