// The call that a line of a trace asks for.
ghost use Rattle.std.specs.Prelude.{◌≡◌};
ghost use Rattle.parser.specs.Asks.{request_of, submission_of, asks_of};

use crate::forms::Said;
use model::{Call, Request};
use platform::Answer;
use regionmap::Position;

// What `w` and `r` name: "handle 0, with its own volume, id and generation".
#[derive(Clone, Copy)]
pub struct Named {
    pub volume: u64,
    pub region: u64,
    pub generation: u64,
}

// What a line asks for: nothing, a call, or what no call is.
#[derive(Clone, Copy)]
pub enum Asks {
    Nothing,
    Call(Call),
    Other,
}

// A request in handle 0.
#[tactic(auto, unfolding(crate::specs::Asks::request_of))]
fn request(
    named: Named,
    buffer: u64,
    position: u64,
    length: u64,
    durable: bool,
    tag: u64,
) -> Request
    ensures { result ≡ request_of named buffer position length durable tag }
{
    Request {
        handle: 0,
        volume: named.volume,
        region: named.region,
        generation: named.generation,
        offset: Position(position),
        buffer,
        length,
        durable,
        tag,
    }
}

// A request submitted as a write or as a read.
#[tactic(auto, unfolding(crate::specs::Asks::submission_of, layout::specs::Pick::pick))]
fn submission(write: bool, q: Request) -> Call
    ensures { result ≡ submission_of write q }
{
    if write {
        return Call::Write(q);
    }
    Call::ReadPage(q)
}

// What a line asks for; `flushes` is "the flush count last given".
pub fn asked(said: Said, named: Named, flushes: u64) -> Asks
    ensures { result ≡ asks_of said named flushes }
{
    match said {
        Said::Comment => Asks::Nothing,
        Said::Call(call) => Asks::Call(call),
        Said::Own {
            write,
            buffer,
            position,
            length,
            durable,
            tag,
        } => Asks::Call(submission(
            write,
            request(named, buffer, position, length, durable, tag),
        )),
        Said::Count { qtag, count } => Asks::Call(Call::Answer {
            qtag,
            answer: Answer::Count(count),
            back: true,
            flushes,
        }),
        _ => Asks::Other,
    }
}
