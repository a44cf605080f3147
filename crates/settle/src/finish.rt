// What becomes of one operation when an answer arrives (store-io's optable.rs: finish, refused_next): step's piece_answered of one that awaits a
// piece, and step's rules of any other.
ghost use Rattle.std.specs.Prelude.{◌+◌, ◌^◌, ◌<◌};
ghost use Rattle.regionmap.specs.Map.{Map};
ghost use Rattle.step.specs.Rules.{piece_answered, Input.answered, rules};
ghost use Rattle.settle.specs.Finished.{plan_with, Tells, PieceFits};

use crate::{Finished, Turn};
use completion::Refusal;
use domain::FirstCause;
use memory::liveregion::LiveRegion;
use model::{Awaits, Kind, Opening, Row, Split};
use platform::Answer;

// A piece's answer (Table::finish, refused_next).
pub fn finish_piece(
    o: Opening,
    g: LiveRegion,
    first: Option<FirstCause>,
    row: Row,
    kind: Kind,
    s: Split,
    piece: u64,
    answer: Answer,
    back: bool,
    flushes: u64,
) -> Finished
    ensures { (m : Map) → g.generation < 2 ^ 32 → s.done + piece < 2 ^ 64
        → Tells result (λ bytes. piece_answered o (plan_with g m) g.forced first row kind s piece bytes answer back flushes) }
{
    if crate::answer::above_piece(piece, answer) {
        return Finished::Away(Refusal::AbovePiece);
    }
    if crate::answer::first_refused(s, answer) {
        return Finished::Rejected {
            raw: crate::error_of(answer),
            buf: crate::buffer_as(back, row.buffer, s.total),
        };
    }
    if crate::answer::goes_on(piece, s, answer, back) {
        let next = Split {
            total: s.total,
            done: s.done.wrapping_add(piece),
        };
        return Finished::Next {
            awaits: Awaits::Piece(kind, next),
            turn: Turn {
                total: s.total,
                by: piece,
            },
        };
    }
    crate::lastpiece::last_piece(o, g, first, row, kind, s, answer, back, flushes)
}

// An answer to the operation in a row (Table::finish); the piece's length is given.
pub fn finish(
    o: Opening,
    g: LiveRegion,
    first: Option<FirstCause>,
    row: Row,
    piece: u64,
    answer: Answer,
    back: bool,
    flushes: u64,
) -> Finished
    ensures { (m : Map) → PieceFits g m piece row.awaits
        → Tells result (λ bytes. rules o (plan_with g m) g.forced first row bytes (answered answer back flushes)) }
{
    match row.awaits {
        Awaits::Piece(kind, split) => finish_piece(
            o, g, first, row, kind, split, piece, answer, back, flushes,
        ),
        _ => Finished::Away(Refusal::NotAwaited), // awaits no piece
    }
}
