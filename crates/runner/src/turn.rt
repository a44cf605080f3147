// optrun, as far as its input was read and answered: a line read from its bytes and answered by the table of document 01's figures (runner), and a
// turn of the program, which goes on in the input. The program itself lends the memory and repeats the turn.
ghost use Rattle.std.specs.Prelude.{◌≡◌, List, ℕ, ◌≤◌, take};
ghost use Rattle.memory.specs.Words.{SameWords, lent_words};
ghost use Rattle.fields.specs.Trace.{Kept};
ghost use Rattle.step.specs.Figures.{figures_plan};
ghost use Rattle.runner.specs.Running.{Line, Answers, Turned, standing_in};

use crate::Host;
use fields::reader::Reader;
use input::Input;
use memory::words::Words;
use std::io::{Stdin, Stdout};

// What is held by value, and where the input stands.
#[derive(Clone, Copy)]
pub struct Running {
    pub host: Host,
    pub from: Input,
}

// The one region of the figures: id, generation, first offset, capacity, data length, one further run.
pub fn plan() -> [u64; 70]
    ensures { result ≡ figures_plan }
{
    let mut p = [0u64; 70];
    p[0] = 7;
    p[1] = 3;
    p[2] = 1024;
    p[3] = 2048;
    p[4] = 2048;
    p[5] = 1;
    p[6] = 1024;
    p[7] = 8192;
    p
}

// A line is answered: "a flush count of 0".
fn line(
    r: Reader,
    text: &[u8; 4096],
    number: u64,
    host: &mut Host,
    words: &mut Words,
    pool: &mut [u8],
    out: &mut [u8; 128],
) -> usize
    ensures same { SameWords words.old words.new }
    ensures by_index { (bytes : List ℕ) → Kept r text.now bytes → Line bytes number
        host.old.counts (lent_words host.old.rows words.old pool.old)
        host.new.counts (lent_words host.new.rows words.new pool.new) (take result out.new) }
    ensures bounded { result ≤ 128 }
{
    let said = parser::lines::optrun_line(parser::lines::finish(r, text));
    let asks = parser::requests::asked(said, crate::named(), 0);
    crate::answer(asks, number, host, words, pool, out)
}

// A line is answered, and the answer printed.
fn answer(
    stdout: Stdout,
    r: Running,
    text: &[u8; 4096],
    words: &mut Words,
    pool: &mut [u8],
) -> Running
    ensures same { SameWords words.old words.new }
    ensures answers { Answers r result text.now (standing_in r words.old pool.old)
        (standing_in result words.new pool.new) }
{
    let mut out = [0u8; 128];
    let mut host = r.host;
    let from = r.from;
    let n = line(
        from.reader,
        text,
        from.number,
        &mut host,
        words,
        pool,
        &mut out,
    );
    input::print(stdout, &out, n);
    Running { host, from }
}

// The same, further in the input.
fn moved(r: Running, from: Input) -> Running
    ensures { (result.from ≡ from) × (result.host ≡ r.host) }
{
    Running { from, ..r }
}

// Goes on in the input, and answers the line if it is complete.
pub fn turn(
    stdin: Stdin,
    stdout: Stdout,
    r: Running,
    text: &mut [u8; 4096],
    chunk: &mut [u8; 4096],
    words: &mut Words,
    pool: &mut [u8],
) -> Running
    ensures same { SameWords words.old words.new }
    ensures turned { Turned r result text.old text.new chunk.old chunk.new
        (standing_in r words.old pool.old) (standing_in result words.new pool.new) }
{
    let from = input::next(stdin, r.from, text, chunk);
    let now = moved(r, from);
    if from.whole {
        return answer(stdout, now, text, words, pool);
    }
    now
}
