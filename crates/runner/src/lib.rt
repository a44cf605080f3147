// A line of optrun is answered by a table: the call that it asks for, and the line that is printed. The table is that of document 01's figures, whose
// requests "name the opening's volume, region and generation".
#![tactic(auto)]

pub mod turn;

ghost use Rattle.std.specs.Prelude.{◌≡◌, ◌≤◌, take};
ghost use Rattle.memory.specs.Words.{SameWords, lent_words};
ghost use Rattle.runner.specs.Runner.{figures_named, Ran, Answers};
ghost use Rattle.step.specs.Figures.{figures_opening};

use memory::words::Words;
use model::{Call, Counts, Opening, Row};
use parser::requests::{Asks, Named};

// What the program holds by value: the counts and the rows.
#[derive(Clone, Copy)]
pub struct Host {
    pub counts: Counts,
    pub rows: [Row; 64],
}

// The numbers of document 01's figures.
pub fn figures() -> Opening
    ensures { result ≡ figures_opening }
{
    Opening {
        block: 512,
        depth: 2,
        lifetime: 1000,
        card: 16384,
        buffers: 3,
        capacity: 2048,
        read_only: false,
        flush: false,
        volume: 1,
        class: 0,
        label: 0,
        epoch: 0,
        regions: 1,
    }
}

// The volume, the id and the generation of the figures' region.
pub fn named() -> Named
    ensures { result ≡ figures_named }
{
    Named {
        volume: 1,
        region: 7,
        generation: 3,
    }
}

// The call is made, and its reply printed to the front of `out`.
fn run(
    call: Call,
    host: &mut Host,
    words: &mut Words,
    pool: &mut [u8],
    out: &mut [u8; 128],
) -> usize
    ensures same { SameWords words.old words.new }
    ensures ran { Ran call host.old.counts (lent_words host.old.rows words.old pool.old)
        host.new.counts (lent_words host.new.rows words.new pool.new) (take result out.new) }
    ensures bounded { result ≤ 128 }
{
    let reply = submitter::call(call, &mut host.counts, &mut host.rows, words, pool);
    printer::short::short_text(reply, out)
}

// A line is answered: a comment by nothing, a call by its reply, any other line by `bad` and its number.
pub fn answer(
    asks: Asks,
    number: u64,
    host: &mut Host,
    words: &mut Words,
    pool: &mut [u8],
    out: &mut [u8; 128],
) -> usize
    ensures same { SameWords words.old words.new }
    ensures answers { Answers asks number host.old.counts (lent_words host.old.rows words.old pool.old)
        host.new.counts (lent_words host.new.rows words.new pool.new) (take result out.new) }
    ensures bounded { result ≤ 128 }
{
    match asks {
        Asks::Nothing => 0,
        Asks::Other => printer::lines::bad_text(number, out),
        Asks::Call(call) => run(call, host, words, pool, out),
    }
}
