// What a line of an open table asks for is done: a call is made, and its reply printed.
ghost use Rattle.std.specs.Prelude.{◌≡◌, ◌≤◌, take};
ghost use Rattle.memory.specs.Words.{SameWords};
ghost use Rattle.session.specs.Asking.{named_in, given_by, Ran, Asked};
ghost use Rattle.session.specs.Lent.{held_in};

use crate::Host;
use memory::words::Words;
use model::Call;
use parser::requests::{Asks, Named};

// What `w` and `r` name.
pub fn named(store: &[u64]) -> Named
    ensures { result ≡ named_in store.now }
{
    Named {
        volume: hostfill::pool::word(store, 8),
        region: hostfill::pool::word(store, 48),
        generation: hostfill::pool::word(store, 49),
    }
}

// The flush count that a call gives, or the one given last.
fn given_by(call: Call, flushes: u64) -> u64
    ensures { result ≡ given_by call flushes }
{
    match call {
        Call::Answer { flushes: given, .. } => given,
        _ => flushes,
    }
}

// The call is made, and its reply printed.
fn run(
    call: Call,
    host: &mut Host,
    words: &mut Words,
    pool: &mut [u8],
    out: &mut [u8; 4096],
) -> usize
    ensures same { SameWords words.old words.new }
    ensures ran { Ran call (held_in host.old words.old pool.old)
        (held_in host.new words.new pool.new) (take result out.new) }
    ensures bounded { result ≤ 4096 }
{
    let reply = submitter::call(call, &mut host.counts, &mut host.rows, words, pool);
    host.flushes = given_by(call, host.flushes);
    printer::output::say_reply(reply, out)
}

// What a line asks for is done: nothing, a call, or the line is of another form.
pub fn ask(
    asks: Asks,
    number: u64,
    host: &mut Host,
    words: &mut Words,
    pool: &mut [u8],
    out: &mut [u8; 4096],
) -> usize
    ensures same { SameWords words.old words.new }
    ensures asked { Asked asks number (held_in host.old words.old pool.old)
        (held_in host.new words.new pool.new) (take result out.new) }
    ensures bounded { result ≤ 4096 }
{
    match asks {
        Asks::Nothing => 0,
        Asks::Other => printer::output::say_bad(number, out),
        Asks::Call(call) => run(call, host, words, pool, out),
    }
}
