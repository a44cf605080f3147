// How an operation ends with its last piece (store-io's settle.rs as document 01 restates it; optable.rs: conclude). A read ends with what it
// read, or as it failed; a write that is written concludes, and one that is not poisons the store. Each function is the definition of its name in
// step's Rules.
ghost use Rattle.std.specs.Prelude.{◌≡◌, ℕ, ◌^◌, ◌<◌, false};
ghost use Rattle.regionmap.specs.Map.{Map};
ghost use Rattle.model.specs.declared.Opening.{Opening};
ghost use Rattle.model.specs.declared.Row.{Row};
ghost use Rattle.std.specs.declared.option.Option.{Option};
ghost use Rattle.domain.specs.declared.FirstCause.{FirstCause};
ghost use Rattle.step.specs.Rules.{failed_read, read_outcome, read_length, last_piece, is_written};
ghost use Rattle.settle.specs.Finished.{plan_with, CountFits, Tells};

use crate::{End, Finished};
use completion::{Outcome, Range};
use domain::{FirstCause, Op};
use memory::liveregion::LiveRegion;
use model::{Kind, Opening, Row, Split};
use platform::Answer;
use regionmap::Position;

// A read that failed: a media error is Corruption, another is Io.
fn failed_read(range: Range, raw: u32, media: bool) -> Outcome
    ensures { result ≡ failed_read range raw media }
{
    if media {
        Outcome::Corruption(range)
    } else {
        Outcome::Io {
            range,
            op: Op::Read,
            raw,
        }
    }
}

// What a read ends with.
fn read_outcome(range: Range, s: Split, answer: Answer, back: bool) -> Outcome
    ensures { CountFits s answer → result ≡ read_outcome range s answer back }
{
    match answer {
        Answer::Count(n) => {
            if back {
                Outcome::Read {
                    len: s.done.wrapping_add(n),
                }
            } else {
                Outcome::Interrupted(range)
            }
        }
        Answer::Error { raw, media } => failed_read(range, raw, media),
        Answer::Refused => Outcome::QueueFull(range),
        Answer::RefusedWith { raw, media } => failed_read(range, raw, media),
    }
}

// The length of a read's buffer at its end.
fn read_length(s: Split, answer: Answer) -> u64
    ensures { CountFits s answer → result ≡ read_length s answer }
{
    match answer {
        Answer::Count(n) => s.done.wrapping_add(n),
        _ => s.total,
    }
}

// The end of a read's last piece.
pub fn last_read(
    g: LiveRegion,
    buffer: u64,
    start: Position,
    end: Position,
    s: Split,
    answer: Answer,
    back: bool,
) -> Finished
    ensures { (o : Opening) (m : Map) (first : Option FirstCause) (row : Row) (flushes : ℕ) → row.buffer ≡ buffer → CountFits s answer
        → Tells result (λ bytes. last_piece o (plan_with g m) g.forced first row (Kind.Read start end) s bytes answer back flushes) }
{
    let range = Range {
        region: g.id,
        start,
        end,
    };
    Finished::Ended(End {
        outcome: read_outcome(range, s, answer, back),
        buf: crate::buffer_as(back, buffer, read_length(s, answer)),
        turn: crate::turn_back(back, s),
        cause: None,
    })
}

// Whether a write is written: its count is the whole length and the buffer came back.
#[tactic(auto, unfolding(step::specs::Rules::is_written))]
pub fn is_written(s: Split, answer: Answer, back: bool) -> bool
    ensures { result ≡ is_written s answer back }
{
    match answer {
        Answer::Count(n) => s.done <= s.total && n == crate::left(s) && back,
        _ => false,
    }
}

// A write that is not written (settle): DurabilityUnknown, and the store is poisoned with the cause write and the error.
pub fn failed_write(
    g: LiveRegion,
    buffer: u64,
    start: Position,
    end: Position,
    s: Split,
    answer: Answer,
    back: bool,
) -> Finished
    ensures { (o : Opening) (m : Map) (first : Option FirstCause) (row : Row) (flushes : ℕ) → row.buffer ≡ buffer → is_written s answer back ≡ false
        → Tells result (λ bytes. last_piece o (plan_with g m) g.forced first row (Kind.Page start end) s bytes answer back flushes) }
{
    let cause = FirstCause {
        op: Op::Write,
        raw: crate::error_of(answer),
    };
    let range = Range {
        region: g.id,
        start,
        end,
    };
    Finished::Ended(End {
        outcome: Outcome::Unknown(range, cause),
        buf: crate::buffer_as(back, buffer, s.total),
        turn: crate::turn_back(back, s),
        cause: Some(cause),
    })
}

// The end of a write's last piece (settle, then conclude).
fn last_write(
    o: Opening,
    g: LiveRegion,
    first: Option<FirstCause>,
    row: Row,
    start: Position,
    end: Position,
    s: Split,
    answer: Answer,
    back: bool,
    flushes: u64,
) -> Finished
    ensures { (m : Map) → g.generation < 2 ^ 32
        → Tells result (λ bytes. last_piece o (plan_with g m) g.forced first row (Kind.Page start end) s bytes answer back flushes) }
{
    if !is_written(s, answer, back) {
        return failed_write(g, row.buffer, start, end, s, answer, back);
    }
    let t = crate::conclude::ticket(o, g, start, end, flushes);
    let buf = crate::buffer_as(back, row.buffer, s.total);
    crate::conclude::conclude(
        o,
        g.forced,
        first,
        row.durable,
        t,
        buf,
        crate::turn_back(back, s),
    )
}

// The end of the operation's last piece, by its kind.
pub fn last_piece(
    o: Opening,
    g: LiveRegion,
    first: Option<FirstCause>,
    row: Row,
    kind: Kind,
    s: Split,
    answer: Answer,
    back: bool,
    flushes: u64,
) -> Finished
    ensures { (m : Map) → g.generation < 2 ^ 32 → CountFits s answer
        → Tells result (λ bytes. last_piece o (plan_with g m) g.forced first row kind s bytes answer back flushes) }
{
    match kind {
        Kind::Page { start, end } => last_write(
            o, g, first, row, start, end, s, answer, back, flushes,
        ),
        Kind::Read { start, end } => last_read(g, row.buffer, start, end, s, answer, back),
    }
}
