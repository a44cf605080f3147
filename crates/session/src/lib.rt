// A trace, answered line by line (TRACE.md): what the programs replay and lists share. Here one line is answered, by where the trace stands.
// preamble: the lines before the table is open.
// start: `start`, the table opened in the program's memory.
// body: the lines after `start`, over an open table or after a refusal.
// table: a line over an open table.
// calls: the call that a line asks for.
// hostlines: `fill`, `sum` and `rows`.
// turn: a turn of a program, which goes on in the input and prints the answer.
// program: the programs themselves.
#![tactic(auto)]

pub mod body;
pub mod calls;
pub mod hostlines;
pub mod preamble;
pub mod program;
pub mod start;
pub mod table;
pub mod turn;

ghost use Rattle.std.specs.Prelude.{List, ℕ, ◌≤◌, take};
ghost use Rattle.memory.specs.Words.{SameWords};
ghost use Rattle.fields.specs.Trace.{Kept};
ghost use Rattle.session.specs.Lent.{stood_in};
ghost use Rattle.session.specs.Lines.{Line};

use fields::reader::Reader;
use memory::words::Words;
use model::{Counts, Opening, Row};

// Where a trace stands.
#[derive(Clone, Copy)]
pub enum Stage {
    // No `open` yet.
    Before,
    // Between `open` and `start`; the opening has as many regions as lines of them have come.
    Planned(Opening),
    // The table is open over so many bytes of the pool.
    Table(usize),
    // "the opening breaks a rule"
    Refused,
    // "prints `limit`, and the program ends"
    Over,
}

// What the host of a trace holds by value: "the flush count last given, 0 at first", the table's counts and its rows.
#[derive(Clone, Copy)]
pub struct Host {
    pub flushes: u64,
    pub counts: Counts,
    pub rows: [Row; 64],
}

// The stage that follows a line, and how many bytes are to be printed.
#[derive(Clone, Copy)]
pub struct Follows {
    pub stage: Stage,
    pub printed: usize,
}

// A line is answered.
pub fn line(
    stage: Stage,
    r: Reader,
    text: &[u8; 4096],
    number: u64,
    plan: &mut [u64; 560],
    host: &mut Host,
    words: &mut Words,
    pool: &mut [u8],
    out: &mut [u8; 4096],
) -> Follows
    ensures same { SameWords words.old words.new }
    ensures by_index { (bytes : List ℕ) → Kept r text.now bytes → Line bytes number
        (stood_in stage plan.old host.old words.old pool.old)
        (stood_in result.stage plan.new host.new words.new pool.new)
        (take result.printed out.new) }
    ensures bounded { result.printed ≤ 4096 }
{
    match stage {
        Stage::Before => crate::preamble::before_line(r, text, number, out),
        Stage::Planned(o) => {
            crate::preamble::planned_line(o, r, text, number, plan, host, words, pool, out)
        }
        Stage::Table(n) => Follows {
            stage: Stage::Table(n),
            printed: crate::body::table_line(n, r, text, number, host, words, pool, out),
        },
        Stage::Refused => Follows {
            stage: Stage::Refused,
            printed: crate::body::refused_line(r, text, number, out),
        },
        Stage::Over => Follows {
            stage: Stage::Over,
            printed: 0,
        },
    }
}
