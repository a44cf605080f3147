// The calls that a host makes (store-io's submitter/mod.rs): the opening, and every call and lookup after it. Rows and counts are lent; what a
// call decides is decided in queuecore, on values and words.
#![tactic(auto)]

ghost use Rattle.memory.specs.Words.{SameWords, lent_words, lent_seen};
ghost use Rattle.optable.specs.Called.{CallsTo, LooksTo};
ghost use Rattle.opening.specs.Prepared.{OpensIn};

use completion::{Refusal, Reply};
use memory::words::{View, Words};
use model::{Call, Counts, Lookup, Opening, Row};

// Opens a table in what is lent (Store::submitter). The plan lists the regions, 70 words each. 13 where a rule of document 01's "Opening" is broken
// or a part of the row memory is too short, and then nothing is changed.
pub fn open(
    o: Opening,
    plan: &[u64],
    rows: &mut [Row],
    words: &mut Words,
    pool: &[u8],
) -> Result<Counts, Refusal>
    ensures same { SameWords words.old words.new }
    ensures opens { OpensIn o plan.now (lent_words rows.old words.old pool.now) result rows.new words.new }
{
    let depth = opening::store::prepare(o, plan, rows.len(), words, pool.len());
    if let Some(n) = depth {
        optable::rows::new(rows, n);
    }
    opening::reply(depth)
}

// One call (Submitter::write, read_page, and the calls of queue_core.rs): the row that it touches is found, what the call does to it is decided,
// and it is claimed, or released, with the counts, as decided; a call that is turned away claims the row as it was (D-16, D-21).
pub fn call(
    call: Call,
    counts: &mut Counts,
    rows: &mut [Row],
    words: &mut Words,
    pool: &mut [u8],
) -> Reply
    ensures same { SameWords words.old words.new }
    ensures calls { CallsTo call counts.old (lent_words rows.old words.old pool.old)
        result counts.new (lent_words rows.new words.new pool.new) }
{
    let c = *counts;
    let at = optable::touched::place(call, c, words.view().free) as usize;
    let row = optable::rows::find(rows, at);
    let t = queuecore::touch(call, row, c, rows.len(), words, pool);
    optable::rows::claim(rows, at, t.row, t.frees);
    optable::rows::release(rows, at, t.row, t.frees);
    optable::counts::accept(counts, t.accepts);
    optable::counts::release(counts, t.frees);
    t.reply
}

// One lookup (store-io's writes_live, and the mark): it changes nothing.
pub fn lookup(x: Lookup, counts: Counts, rows: &[Row], words: &View, pool: &[u8]) -> Reply
    ensures { LooksTo x counts (lent_seen rows.now words.now pool.now) result }
{
    match words.fitted(rows.len(), pool.len()) {
        Some(depth) => {
            let l = optable::lookup::look(rows, depth, counts.submissions);
            optable::lookup::answer(x, counts, Some(l))
        }
        None => optable::lookup::answer(x, counts, None),
    }
}
