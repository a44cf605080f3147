// What the k-th field of a line holds: an OS error, a gate, a flag, an operation; and a cause of two fields, a request of nine. Each value is asked
// for apart from whether the field holds one: where it holds none, the value is the first of its kind.
ghost use Rattle.std.specs.Prelude.{◌≡◌};
ghost use Rattle.parser.specs.Values.{is_raw, raw_in, gate_in, flag_in, request_in, is_op, op_in, is_error, error_in, is_cause, cause_in};

use domain::{FirstCause, Op, OsError};
use model::{Gate, Request};
use regionmap::Position;

// Whether the k-th field is a number below 2^32.
#[tactic(auto, using(crate::proofs::Words::is_raw_by))]
pub fn is_raw(text: &[u8], k: usize) -> bool
    ensures { result ≡ is_raw k text.now }
{
    matches!(fields::number_in(text, k), Some(0..=0xffff_ffff))
}

// Which, 0 where it is none.
#[tactic(auto, unfolding(crate::specs::Values::raw_in, layout::specs::Pick::pick))]
pub fn raw_in(text: &[u8], k: usize) -> u32
    ensures { result ≡ raw_in k text.now }
{
    if !is_raw(text, k) {
        return 0;
    }
    fields::words::value_in(text, k) as u32
}

// The gate in the k-th field.
#[tactic(auto, unfolding(crate::specs::Values::gate_in, layout::specs::Pick::pick))]
pub fn gate_in(text: &[u8], k: usize) -> Gate
    ensures { result ≡ gate_in k text.now }
{
    match fields::words::value_in(text, k) {
        0 => Gate::Open,
        1 => Gate::Recycled,
        _ => Gate::Released,
    }
}

// The flag in the k-th field.
#[tactic(auto, unfolding(crate::specs::Values::flag_in))]
pub fn flag_in(text: &[u8], k: usize) -> bool
    ensures { result ≡ flag_in k text.now }
{
    fields::words::value_in(text, k) == 1
}

// The request of `W` and `R`.
#[tactic(auto, unfolding(crate::specs::Values::request_in))]
pub fn request_in(text: &[u8]) -> Request
    ensures { result ≡ request_in text.now }
{
    Request {
        handle: fields::words::value_in(text, 1),
        volume: fields::words::value_in(text, 2),
        region: fields::words::value_in(text, 3),
        generation: fields::words::value_in(text, 4),
        offset: Position(fields::words::value_in(text, 5)),
        buffer: fields::words::value_in(text, 6),
        length: fields::words::value_in(text, 7),
        durable: flag_in(text, 8),
        tag: fields::words::value_in(text, 9),
    }
}

// Whether the k-th field is an operation or `-`.
#[tactic(auto, unfolding(crate::specs::Values::is_op))]
pub fn is_op(text: &[u8], k: usize) -> bool
    ensures { result ≡ is_op k text.now }
{
    fields::words::is_word(text, k, b"-")
        || fields::words::is_word(text, k, b"read")
        || fields::words::is_word(text, k, b"write")
        || fields::words::is_word(text, k, b"flush")
}

// The operation in the k-th field.
#[tactic(auto, unfolding(crate::specs::Values::op_in, layout::specs::Pick::pick))]
pub fn op_in(text: &[u8], k: usize) -> Op
    ensures { result ≡ op_in k text.now }
{
    if fields::words::is_word(text, k, b"read") {
        return Op::Read;
    }
    if fields::words::is_word(text, k, b"write") {
        return Op::Write;
    }
    if fields::words::is_word(text, k, b"flush") {
        return Op::Flush;
    }
    Op::None
}

// Whether the k-th field is an OS error or `-`.
#[tactic(auto, unfolding(crate::specs::Values::is_error))]
pub fn is_error(text: &[u8], k: usize) -> bool
    ensures { result ≡ is_error k text.now }
{
    is_raw(text, k) || fields::words::is_word(text, k, b"-")
}

// The OS error in the k-th field.
#[tactic(auto, unfolding(crate::specs::Values::error_in, layout::specs::Pick::pick))]
pub fn error_in(text: &[u8], k: usize) -> Option<OsError>
    ensures { result ≡ error_in k text.now }
{
    if is_raw(text, k) {
        return Some(raw_in(text, k));
    }
    None
}

// Whether two fields are `OP ERR`.
#[tactic(auto, unfolding(crate::specs::Values::is_cause))]
pub fn is_cause(text: &[u8], op: usize, err: usize) -> bool
    ensures { result ≡ is_cause op err text.now }
{
    is_op(text, op) && is_error(text, err)
}

// The cause in two fields.
#[tactic(auto, unfolding(crate::specs::Values::cause_in))]
pub fn cause_in(text: &[u8], op: usize, err: usize) -> FirstCause
    ensures { result ≡ cause_in op err text.now }
{
    FirstCause {
        op: op_in(text, op),
        raw: error_in(text, err),
    }
}
