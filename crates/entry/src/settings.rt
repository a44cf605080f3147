// The settings of a region and the report of poison, over rows in words, by one function: they are rare, and all leave the same, other words of the
// store (calls has those of an operation's way, each by a function of its own). It goes to their own arms, not through queuecore's arm of all
// calls: the arms of calls would then be named twice, and not be compiled into their callers. No row is touched: row 0 is put back as it was.
ghost use Rattle.marks.specs.Marks.{MarksTo};
ghost use Rattle.entry.specs.Settings.{setting_call};
ghost use Rattle.memory.specs.Words.{SameWords};
ghost use Rattle.entry.specs.Lent.{CallsIn};

use completion::{Refusal, Reply};
use domain::FirstCause;
use memory::words::Words;
use model::{Gate, Row};
use optable::touched::Touched;

// What is set or reported.
#[derive(Clone, Copy)]
pub enum Setting {
    Gate { handle: u64, gate: Gate },
    ReadOnly { handle: u64, on: bool },
    Forced { handle: u64, on: bool },
    Poison(FirstCause),
}

// The words of the store are set ("report poison with a cause (the first is kept)").
fn mark(what: Setting, row: Row, store: &mut [u64]) -> Touched
    ensures { MarksTo (setting_call what) row store.old result store.new }
{
    match what {
        Setting::Gate { handle, gate } => marks::gate::set_gate(row, store, handle, gate),
        Setting::ReadOnly { handle, on } => marks::gate::set_read_only(row, store, handle, on),
        Setting::Forced { handle, on } => marks::gate::set_forced(row, store, handle, on),
        Setting::Poison(cause) => marks::poison::report_poison(row, store, cause),
    }
}

// One of these calls.
pub fn set(
    what: Setting,
    counts: &mut [u64; 3],
    rows: &mut [u64],
    words: &mut Words,
    pool: &mut [u8],
) -> Reply
    ensures same { SameWords words.old words.new }
    ensures calls { CallsIn (setting_call what) counts.old rows.old words.old pool.old result counts.new rows.new words.new pool.new }
{
    if !crate::wholerows::fits_words(rows, words, pool) {
        return Reply::No(Refusal::Unfit);
    }
    let c = crate::words::counts_of(*counts);
    let row = abi::rows::row_at(rows, 0);
    let t = mark(what, row, words.store);
    crate::words::put_touched(t, 0, c, counts, rows)
}
