// Whether a submission is accepted, and as what (store-io's submitter/mod.rs: write, read_page and read): the questions, and of an
// accepted one the row on top of the free stack and the first piece.
//
// admit      questions 2 to 6
// issue      what a verdict leaves
// questions  the questions in their order
#![tactic(auto)]

pub mod admit;
pub mod issue;
pub mod questions;

ghost use Rattle.std.specs.Prelude.{◌≡◌};
ghost use Rattle.step.specs.Step.{write_verdict, read_verdict};
ghost use Rattle.submission.specs.Decided.{DecidedBy, Decides, end_wrapped};

use completion::Refusal;
use model::{Accepted, Counts, Kind, Request};
use regionmap::Position;

// Where the range of a request ends; of an accepted one no sum wraps.
fn end_of(q: Request) -> Position
    ensures { result ≡ end_wrapped q }
{
    Position(q.offset.0.wrapping_add(q.length))
}

// The questions' answer and, where it is yes, what is accepted: the row on top of the free stack, and the first piece.
fn decide(
    asked: Result<(), Refusal>,
    live: u64,
    store: &[u64],
    free: &[u64],
    kind: Kind,
    q: Request,
) -> Result<Accepted, Refusal>
    ensures { DecidedBy asked live store.now free.now kind q result }
{
    asked?;
    Ok(Accepted {
        row: optable::top(free, live),
        kind,
        piece: memory::piece::first_piece(store, q.handle, q.offset, q.length),
    })
}

// Whether a write is accepted, and as what (Submitter::write).
pub fn write(
    counts: Counts,
    store: &[u64],
    free: &[u64],
    owners: &[u64],
    q: Request,
) -> Result<Accepted, Refusal>
    ensures { Decides write_verdict counts store.now free.now owners.now q result }
{
    let asked = crate::questions::ask_write(counts, store, owners, q);
    let kind = Kind::Page {
        start: q.offset,
        end: end_of(q),
    };
    decide(asked, counts.live, store, free, kind, q)
}

// Whether a read is accepted, and as what (Submitter::read_page and read).
pub fn read_page(
    counts: Counts,
    store: &[u64],
    free: &[u64],
    owners: &[u64],
    q: Request,
) -> Result<Accepted, Refusal>
    ensures { Decides read_verdict counts store.now free.now owners.now q result }
{
    let asked = crate::questions::ask_read(counts, store, owners, q);
    let kind = Kind::Read {
        start: q.offset,
        end: end_of(q),
    };
    decide(asked, counts.live, store, free, kind, q)
}
