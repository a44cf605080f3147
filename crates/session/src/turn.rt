// A trace, as far as it was read and answered: what the programs replay and lists share. How a line is answered stands in the crate's root; here
// the memory is lent, and the answer printed.
ghost use Rattle.std.specs.Prelude.{◌≡◌, replicate};
ghost use Rattle.model.specs.State.{freed, fresh};
ghost use Rattle.memory.specs.Words.{SameWords};
ghost use Rattle.session.specs.Replayed.{Answers, Turned, over_at};
ghost use Rattle.session.specs.Lent.{standing_in};

use crate::{Host, Stage};
use input::Input;
use memory::words::Words;
use std::io::{Stdin, Stdout};

// Where the trace stands, what is held by value, and where the input stands.
#[derive(Clone, Copy)]
pub struct Running {
    pub stage: Stage,
    pub host: Host,
    pub from: Input,
}

// A line is answered, and the answer printed.
pub fn answer(
    stdout: Stdout,
    r: Running,
    line: &[u8; 4096],
    plan: &mut [u64; 560],
    words: &mut Words,
    pool: &mut [u8; 1048576],
) -> Running
    ensures same { SameWords words.old words.new }
    ensures answers { Answers r result line.now (standing_in r plan.old words.old pool.old)
        (standing_in result plan.new words.new pool.new) }
{
    let mut out = [0u8; 4096];
    let mut host = r.host;
    let from = r.from;
    let f = crate::line(
        r.stage,
        from.reader,
        line,
        from.number,
        plan,
        &mut host,
        words,
        pool,
        &mut out,
    );
    input::print(stdout, &out, f.printed);
    Running {
        stage: f.stage,
        host,
        from,
    }
}

// The same, further in the input.
pub fn moved(r: Running, from: Input) -> Running
    ensures { (result.from ≡ from) × ((result.stage ≡ r.stage) × (result.host ≡ r.host)) }
{
    Running { from, ..r }
}

// Before the first line of a trace.
pub fn begun(from: Input) -> Running
    ensures { (result.stage ≡ Stage.Before) ×
        ((result.host ≡ record { flushes = 0; counts = fresh; rows = replicate 64 (freed 0) }) × (result.from ≡ from)) }
{
    Running {
        stage: Stage::Before,
        host: Host {
            flushes: 0,
            counts: opening::fresh(),
            rows: [optable::freed_row(0); 64],
        },
        from,
    }
}

// Goes on in the input, and answers the line if it is complete.
pub fn turn(
    stdin: Stdin,
    stdout: Stdout,
    r: Running,
    line: &mut [u8; 4096],
    chunk: &mut [u8; 4096],
    plan: &mut [u64; 560],
    words: &mut Words,
    pool: &mut [u8; 1048576],
) -> Running
    ensures same { SameWords words.old words.new }
    ensures turned { Turned r result line.old line.new chunk.old chunk.new
        (standing_in r plan.old words.old pool.old)
        (standing_in result plan.new words.new pool.new) }
{
    let from = input::next(stdin, r.from, line, chunk);
    let now = moved(r, from);
    if from.whole {
        return answer(stdout, now, line, plan, words, pool);
    }
    now
}

// Whether the program ends: at the end of the input, or "prints `limit`, and the program ends".
pub fn over(stage: Stage, from: Input) -> bool
    ensures { result ≡ over_at stage from.ended }
{
    match stage {
        Stage::Over => true,
        _ => from.ended,
    }
}
