// A completion as the 16 words in which it lies in the row memory (the model's Memory: completion_words).
ghost use Rattle.std.specs.Prelude.{◌≡◌, [], ◌∷◌, ◌++◌};
ghost use Rattle.model.specs.Memory.{op_word, has_word, raw_word, outcome_words, buffer_words, generation_word, completion_words};

use completion::{Completion, Held, Outcome, Range, WriteTicket};
use domain::FirstCause;
use regionmap::Position;

// Words 1 to 9, and word 13, of an outcome with a ticket.
fn ticket_words(kind: u64, t: WriteTicket, need: u64) -> [u64; 10]
    ensures { result ≡ kind ∷ t.region ∷ t.start.0 ∷ t.end.0 ∷ t.need ∷ need ∷ 0 ∷ 0 ∷ 0 ∷ t.generation ∷ [] }
{
    [
        kind,
        t.region,
        t.start.0,
        t.end.0,
        t.need,
        need,
        0,
        0,
        0,
        t.generation as u64,
    ]
}

// The same of an outcome with a range, and an operation and an error, or 0.
fn range_words(kind: u64, r: Range, op: u64, has: u64, raw: u64) -> [u64; 10]
    ensures { result ≡ kind ∷ r.region ∷ r.start.0 ∷ r.end.0 ∷ 0 ∷ 0 ∷ op ∷ has ∷ raw ∷ 0 ∷ [] }
{
    [kind, r.region, r.start.0, r.end.0, 0, 0, op, has, raw, 0]
}

// The same of an outcome with a range and a cause.
fn cause_words(kind: u64, r: Range, e: FirstCause) -> [u64; 10]
    ensures { result ≡ kind ∷ r.region ∷ r.start.0 ∷ r.end.0 ∷ 0 ∷ 0 ∷ op_word e.op ∷ has_word e.raw ∷ raw_word e.raw ∷ 0 ∷ [] }
{
    range_words(
        kind,
        r,
        memory::causes::op_word(e.op),
        memory::causes::has_word(e.raw),
        memory::causes::raw_word(e.raw),
    )
}

// Words 1 to 9, and word 13.
fn outcome_words(x: Outcome) -> [u64; 10]
    ensures { result ≡ outcome_words x ++ (generation_word x ∷ []) }
{
    match x {
        Outcome::Written(t) => ticket_words(1, t, 0),
        Outcome::Receipt(t, d) => ticket_words(2, t, d.need),
        Outcome::Read { len } => [3, 0, 0, 0, 0, len, 0, 0, 0, 0],
        Outcome::Unknown(r, e) => cause_words(4, r, e),
        Outcome::Interrupted(r) => range_words(5, r, 0, 0, 0),
        Outcome::Corruption(r) => range_words(6, r, 0, 0, 0),
        Outcome::Io { range, op, raw } => range_words(
            7,
            range,
            memory::causes::op_word(op),
            1,
            raw as u64,
        ),
        Outcome::QueueFull(r) => range_words(8, r, 0, 0, 0),
        Outcome::Poisoned(e) => cause_words(
            9,
            Range {
                region: 0,
                start: Position(0),
                end: Position(0),
            },
            e,
        ),
    }
}

// Words 10 to 12.
fn buffer_words(b: Option<Held>) -> [u64; 3]
    ensures { result ≡ buffer_words b }
{
    match b {
        Some(Held { buffer, len }) => [1, buffer, len],
        None => [0, 0, 0],
    }
}

// The 16 words of a completion.
pub fn words_of(c: Completion) -> [u64; 16]
    ensures { result ≡ completion_words c }
{
    let x = outcome_words(c.outcome);
    let b = buffer_words(c.buf);
    [
        c.tag, x[0], x[1], x[2], x[3], x[4], x[5], x[6], x[7], x[8], b[0], b[1], b[2], x[9], 0, 0,
    ]
}
