// What a host asks for in numbers (specs/Asked.antt): what a code names, or that it names nothing.
ghost use Rattle.std.specs.Prelude.{◌≡◌};
ghost use Rattle.model.specs.Memory.{settings_in};
ghost use Rattle.abi.specs.Asked.{request_in, error_of, cause_of, answer_form, flushed_form, gate_form, cause_form};

use domain::{FirstCause, OsError};
use model::{Gate, Opening, Request};
use platform::{Answer, Flushed};
use regionmap::Position;

// The request in 9 words.
pub fn request_of(w: &[u64; 9]) -> Request
    ensures { result ≡ request_in w.now }
{
    Request {
        handle: w[0],
        volume: w[1],
        region: w[2],
        generation: w[3],
        offset: Position(w[4]),
        buffer: w[5],
        length: w[6],
        durable: w[7] != 0,
        tag: w[8],
    }
}

// The numbers of an opening in 13 words.
pub fn opening_of(w: &[u64; 13]) -> Opening
    ensures { result ≡ settings_in w.now }
{
    Opening {
        block: w[0],
        depth: w[1],
        lifetime: w[2],
        card: w[3],
        buffers: w[4],
        capacity: w[5],
        read_only: w[6] != 0,
        flush: w[7] != 0,
        volume: w[8],
        class: w[9],
        label: w[10],
        epoch: w[11],
        regions: w[12],
    }
}

// An OS error, or none.
fn error_of(has: bool, raw: u32) -> Option<OsError>
    ensures { result ≡ error_of has raw }
{
    has.then_some(raw)
}

// A cause.
fn cause_of(op: u64, has: bool, raw: u32) -> FirstCause
    ensures { result ≡ cause_of op has raw }
{
    FirstCause {
        op: memory::causes::op_of(op),
        raw: error_of(has, raw),
    }
}

// An answer, by its form; none where the form names none.
pub fn answer_form(form: u64, count: u64, raw: u32, media: bool) -> Option<Answer>
    ensures { result ≡ answer_form form count raw media }
{
    match form {
        0 => Some(Answer::Count(count)),
        1 => Some(Answer::Error { raw, media }),
        2 => Some(Answer::Refused),
        3 => Some(Answer::RefusedWith { raw, media }),
        _ => None,
    }
}

// A flush result, by its form; none where the form or the operation's code names none.
pub fn flushed_form(form: u64, need: u64, op: u64, has: bool, raw: u32) -> Option<Flushed>
    ensures { result ≡ flushed_form form need op has raw }
{
    if form == 0 {
        return Some(Flushed::Need(need));
    }
    if 4 <= op {
        return None;
    }
    let cause = cause_of(op, has, raw);
    match form {
        1 => Some(Flushed::Unknown(cause)),
        2 => Some(Flushed::Poisoned(cause)),
        _ => None,
    }
}

// A gate, by its code; none where the code names none.
pub fn gate_form(gate: u64) -> Option<Gate>
    ensures { result ≡ gate_form gate }
{
    match gate {
        0 => Some(Gate::Open),
        1 => Some(Gate::Recycled),
        2 => Some(Gate::Released),
        _ => None,
    }
}

// A cause, by its operation's code; none where that names none.
pub fn cause_form(op: u64, has: bool, raw: u32) -> Option<FirstCause>
    ensures { result ≡ cause_form op has raw }
{
    if op < 4 {
        Some(cause_of(op, has, raw))
    } else {
        None
    }
}
