// The completion in the 16 words in which it lies in the row memory (the model's Memory: completion_in).
ghost use Rattle.std.specs.Prelude.{◌≡◌, ◌≤◌, length};
ghost use Rattle.model.specs.Memory.{range_in, ticket_in, outcome_in, buffer_in, completion_in};

use completion::{Completion, Held, Outcome, Range, WriteTicket};
use model::Opening;
use regionmap::Position;

// The range, of words 2 to 4.
fn range_of(w: &[u64]) -> Range
    requires { 16 ≤ length w.now }
    ensures { result ≡ range_in w.now }
{
    Range {
        region: w[2],
        start: Position(w[3]),
        end: Position(w[4]),
    }
}

// The ticket, of words 2 to 5 and 13; volume and epoch are the opening's.
fn ticket_of(w: &[u64], o: Opening) -> WriteTicket
    requires { 16 ≤ length w.now }
    ensures { result ≡ ticket_in o w.now }
{
    WriteTicket {
        volume: o.volume,
        region: w[2],
        generation: (w[13] % 4294967296) as u32,
        start: Position(w[3]),
        end: Position(w[4]),
        need: w[5],
        epoch: o.epoch,
    }
}

// The outcome, by word 1.
fn outcome_of(w: &[u64], o: Opening) -> Outcome
    requires { 16 ≤ length w.now }
    ensures { result ≡ outcome_in o w.now }
{
    let kind = w[1];
    let t = ticket_of(w, o);
    let r = range_of(w);
    let e = memory::causes::cause_of(w[7], w[8], w[9]);
    match kind {
        1 => Outcome::Written(t),
        2 => Outcome::Receipt(t, region::receipt::receipt_for(o, t, w[6])),
        3 => Outcome::Read { len: w[6] },
        4 => Outcome::Unknown(r, e),
        5 => Outcome::Interrupted(r),
        6 => Outcome::Corruption(r),
        7 => Outcome::Io {
            range: r,
            op: e.op,
            raw: (w[9] % 4294967296) as u32,
        },
        8 => Outcome::QueueFull(r),
        _ => Outcome::Poisoned(e),
    }
}

// The buffer, of words 10 to 12.
fn buffer_of(back: u64, buffer: u64, len: u64) -> Option<Held>
    ensures { result ≡ buffer_in back buffer len }
{
    if back == 0 {
        None
    } else {
        Some(Held { buffer, len })
    }
}

// The completion in 16 words.
pub fn completion_of(w: &[u64], o: Opening) -> Completion
    requires { 16 ≤ length w.now }
    ensures { result ≡ completion_in o w.now }
{
    Completion {
        tag: w[0],
        outcome: outcome_of(w, o),
        buf: buffer_of(w[10], w[11], w[12]),
    }
}
