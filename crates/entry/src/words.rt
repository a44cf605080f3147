// The calls that a host makes whose rows lie in words (store-io's submitter/mod.rs): what the crate submitter does over lent records, with the same
// promises.
ghost use Rattle.std.specs.Prelude.{◌≡◌, length, take};
ghost use Rattle.optable.specs.Counted.{accepted_if, released_by};
ghost use Rattle.optable.specs.Looked.{looked_in};
ghost use Rattle.abi.specs.RowWords.{rows_in};
ghost use Rattle.step.specs.Lists.{is_away};
ghost use Rattle.entry.specs.WordCalls.{counts_in, count_words, Counted, Put};
ghost use Rattle.memory.specs.Words.{SameWords};
ghost use Rattle.entry.specs.Lent.{OpensWordsIn, LooksWordsIn};

use completion::{Refusal, Reply};
use memory::words::{View, Words};
use model::{Counts, Lookup, Opening};
use optable::lookup::Looked;
use optable::touched::Touched;

// Opens a table in what is lent (submitter::open).
pub fn open_words(
    o: Opening,
    plan: &[u64],
    rows: &mut [u64],
    words: &mut Words,
    pool: &[u8],
) -> Result<Counts, Refusal>
    ensures same { SameWords words.old words.new }
    ensures opens { OpensWordsIn o plan.now rows.old words.old pool.now result rows.new words.new }
{
    let depth = opening::store::prepare(o, plan, rows.len() / 16, words, pool.len());
    if let Some(n) = depth {
        abi::rows::clear(rows, n);
    }
    opening::reply(depth)
}

// The counts in three words.
pub fn counts_of(counts: [u64; 3]) -> Counts
    ensures value { result ≡ counts_in counts }
    ensures three { length counts ≡ 3 }
{
    Counts {
        live: counts[0],
        ready: counts[1],
        submissions: counts[2],
    }
}

// The counts are put into their words, as a call leaves them.
fn put_counts(t: Touched, c: Counts, counts: &mut [u64; 3])
    ensures { counts.new ≡ count_words (released_by t.frees (accepted_if t.accepts c)) }
{
    let next = optable::released(optable::accepted(c, t.accepts), t.frees);
    *counts = [next.live, next.ready, next.submissions];
}

// Whether a call is turned away.
fn away(reply: Reply) -> bool
    ensures { result ≡ is_away reply }
{
    match reply {
        Reply::No(_) => true,
        _ => false,
    }
}

// The counts are put into their words, unless the call is turned away: then none is written.
pub fn put_counted(t: Touched, c: Counts, counts: &mut [u64; 3]) -> Reply
    ensures { Counted t c counts.old result counts.new }
{
    if away(t.reply) {
        return t.reply;
    }
    put_counts(t, c, counts);
    t.reply
}

// The row that a call touches and the counts are put into their words, as the call leaves them; one that is turned away writes neither.
pub fn put_touched(
    t: Touched,
    at: usize,
    c: Counts,
    counts: &mut [u64; 3],
    rows: &mut [u64],
) -> Reply
    ensures { Put t at c counts.old rows.old result counts.new rows.new }
{
    if away(t.reply) {
        return t.reply;
    }
    abi::rows::put_row(rows, at, t.row);
    put_counts(t, c, counts);
    t.reply
}

// Walks through the first rows, as many as the depth, from the last to the first (optable::lookup::look).
fn look(rows: &[u64], depth: usize, next: u64) -> Looked
    ensures { result ≡ looked_in next (take depth (rows_in rows.now)) }
{
    let n = depth.min(rows.len() / 16);
    let mut l = Looked {
        writes: false,
        oldest: next,
    };
    for i in (0..n).rev() {
        l = optable::lookup::seen(l, abi::rows::row_at(rows, i));
    }
    l
}

// One lookup (submitter::lookup): it changes nothing.
pub fn lookup_words(x: Lookup, counts: &[u64; 3], rows: &[u64], words: &View, pool: &[u8]) -> Reply
    ensures { LooksWordsIn x counts.now rows.now words.now pool.now result }
{
    let c = counts_of(*counts);
    match words.fitted(rows.len() / 16, pool.len()) {
        Some(depth) => {
            let l = look(rows, depth, c.submissions);
            optable::lookup::answer(x, c, Some(l))
        }
        None => optable::lookup::answer(x, c, None),
    }
}
