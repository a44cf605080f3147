// What becomes of an operation when its answer or its flush result arrives, as a value: no word and no byte is touched here (store-io's
// settle.rs as document 01 restates it; optable.rs: Finish). Each function is the definition of its name in step's Rules.
//
// answer     what is asked of a piece's answer before the operation ends with it
// conclude   a write that is written
// finish     an answer
// flushed    a flush result
// lastpiece  the end with the last piece
#![tactic(auto)]

pub mod answer;
pub mod conclude;
pub mod finish;
pub mod flushed;
pub mod lastpiece;

ghost use Rattle.std.specs.Prelude.{◌≡◌, ℕ, ◌-◌, List};
ghost use Rattle.step.specs.Rules.{error_of, buffer_as, turned_back};
ghost use Rattle.settle.specs.Finished.{turned_by};

use completion::{Held, Outcome, Refusal};
use domain::{FirstCause, OsError};
use model::{Awaits, Split};
use platform::Answer;

// The first bytes of the operation's buffer, as many as its length, turn left by so much (D-29).
#[derive(Clone, Copy)]
pub struct Turn {
    pub total: u64,
    pub by: u64,
}

// What ends an operation: its outcome, its buffer, how the bytes there turn, and the cause with which the store is poisoned, if any.
#[derive(Clone, Copy)]
pub struct End {
    pub outcome: Outcome,
    pub buf: Option<Held>,
    pub turn: Turn,
    pub cause: Option<FirstCause>,
}

// What becomes of an operation (Finish of optable.rs, where a function has the name too): turned away; it awaits its next piece or its flush; it
// is complete, and may poison the store; its first piece is refused.
#[derive(Clone, Copy)]
pub enum Finished {
    Away(Refusal),
    Next {
        awaits: Awaits,
        turn: Turn,
    },
    Ended(End),
    Rejected {
        raw: Option<OsError>,
        buf: Option<Held>,
    },
}

// The OS error of an answer, if there was one.
pub fn error_of(answer: Answer) -> Option<OsError>
    ensures { result ≡ error_of answer }
{
    match answer {
        Answer::Count(_) => None,
        Answer::Error { raw, .. } => Some(raw),
        Answer::Refused => None,
        Answer::RefusedWith { raw, .. } => Some(raw),
    }
}

// The buffer, if it came back, at a length.
pub fn buffer_as(back: bool, buffer: u64, len: u64) -> Option<Held>
    ensures { result ≡ buffer_as back buffer len }
{
    if back {
        Some(Held { buffer, len })
    } else {
        None
    }
}

// What is left of a length behind what is done.
pub fn left(s: Split) -> u64
    ensures { result ≡ s.total - s.done }
{
    s.total.saturating_sub(s.done)
}

// The turn back to the first arrangement, by total - done; a lost buffer stays as it lies.
pub fn turn_back(back: bool, s: Split) -> Turn
    ensures { (bytes : List ℕ) → turned_by result bytes ≡ turned_back back s bytes }
{
    Turn {
        total: s.total,
        by: if back { left(s) } else { 0 },
    }
}
