// A cause in words, and back (the model's Memory says how it lies there): store-io keeps causes as values, in Inner's domain and in completions.
ghost use Rattle.std.specs.Prelude.{◌≡◌};
ghost use Rattle.model.specs.Memory.{op_in, error_in, cause_in, op_word, has_word, raw_word};

use domain::{FirstCause, Op, OsError};

// An operation in a word.
#[tactic(auto, unfolding(model::specs::Memory::op_in, layout::specs::Pick::pick))]
pub fn op_of(word: u64) -> Op
    ensures { result ≡ op_in word }
{
    match word {
        0 => Op::None,
        1 => Op::Read,
        2 => Op::Write,
        _ => Op::Flush,
    }
}

// An OS error in two words; the low 32 bits of the second are taken.
pub fn error_of(has: u64, word: u64) -> Option<OsError>
    ensures { result ≡ error_in has word }
{
    if has == 0 {
        None
    } else {
        Some((word % 4294967296) as u32)
    }
}

// A cause in three words.
pub fn cause_of(op: u64, has: u64, word: u64) -> FirstCause
    ensures { result ≡ cause_in op has word }
{
    FirstCause {
        op: op_of(op),
        raw: error_of(has, word),
    }
}

// An operation as a word.
pub fn op_word(op: Op) -> u64
    ensures { result ≡ op_word op }
{
    match op {
        Op::None => 0,
        Op::Read => 1,
        Op::Write => 2,
        Op::Flush => 3,
    }
}

// Whether there is an OS error, as a word.
pub fn has_word(e: Option<OsError>) -> u64
    ensures { result ≡ has_word e }
{
    crate::flag_word(e.is_some())
}

// The OS error as a word; 0 where there is none.
pub fn raw_word(e: Option<OsError>) -> u64
    ensures { result ≡ raw_word e }
{
    e.unwrap_or(0) as u64
}
