// The lookups, which change nothing (store-io's optable.rs: writes_live; the mark of frontier.rs as document 01 restates it): one walk through
// the rows.
ghost use Rattle.std.specs.Prelude.{◌≡◌, take};
ghost use Rattle.step.specs.Step.{writes_in, is_live};
ghost use Rattle.optable.specs.Looked.{is_page, seen_by, looked_in, mark_wrapped, replies_as, answer_of};

use completion::{Refusal, Reply};
use model::{Awaits, Counts, Kind, Lookup, Row};

// What a walk through the rows finds: whether a write awaits a piece, and the oldest live sequence number.
#[derive(Clone, Copy)]
pub struct Looked {
    pub writes: bool,
    pub oldest: u64,
}

// Whether a write awaits a piece.
fn writes_in(awaits: Awaits) -> bool
    ensures { result ≡ writes_in awaits }
{
    match awaits {
        Awaits::Piece(kind, _) => is_page(kind),
        _ => false,
    }
}

// Whether an operation is a write.
fn is_page(kind: Kind) -> bool
    ensures { result ≡ is_page kind }
{
    match kind {
        Kind::Page { .. } => true,
        Kind::Read { .. } => false,
    }
}

// Whether a row is live.
fn is_live(awaits: Awaits) -> bool
    ensures { result ≡ is_live awaits }
{
    match awaits {
        Awaits::Nothing => false,
        _ => true,
    }
}

// What is found with one row more.
pub fn seen(l: Looked, row: Row) -> Looked
    ensures { result ≡ seen_by row l }
{
    Looked {
        writes: writes_in(row.awaits) || l.writes,
        oldest: if is_live(row.awaits) {
            row.seq.min(l.oldest)
        } else {
            l.oldest
        },
    }
}

// Walks through the first rows, as many as the depth, from the last to the first.
pub fn look(rows: &[Row], depth: usize, next: u64) -> Looked
    ensures { result ≡ looked_in next (take depth rows.now) }
{
    let n = depth.min(rows.len());
    let mut l = Looked {
        writes: false,
        oldest: next,
    };
    for row in rows[..n].iter().rev() {
        l = seen(l, *row);
    }
    l
}

// The mark: 2 × the oldest live sequence number + 1, or 2 × the next if none is live.
pub fn mark(counts: Counts, oldest: u64) -> u64
    ensures { result ≡ mark_wrapped counts oldest }
{
    if counts.live == 0 {
        counts.submissions.wrapping_add(counts.submissions)
    } else {
        oldest.wrapping_add(oldest).wrapping_add(1)
    }
}

// The reply to a lookup, once the lengths are found to be the opening's.
fn reply(x: Lookup, counts: Counts, l: Looked) -> Reply
    ensures { result ≡ replies_as x counts l }
{
    match x {
        Lookup::WritesLive => Reply::Writes(l.writes),
        Lookup::Mark => Reply::Mark(mark(counts, l.oldest)),
    }
}

// The reply, of what is found where the lengths are the opening's: "A later call with another length of row memory or pool gets 13 first."
pub fn answer(x: Lookup, counts: Counts, found: Option<Looked>) -> Reply
    ensures { result ≡ answer_of x counts found }
{
    match found {
        Some(l) => reply(x, counts, l),
        None => Reply::No(Refusal::Unfit),
    }
}
