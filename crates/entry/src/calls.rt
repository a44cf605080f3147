// The calls of an operation's way, each by a function of its own, over rows in words: a submission, an answer or a flush result, a taking. 13 first,
// as everywhere; then the call is its arm's (queue_core.rs), and the row and the counts are put into their words. The code of one call carries
// nothing that only another leaves (D-16).
ghost use Rattle.arrival.specs.Arrived.{arrived_call};
ghost use Rattle.memory.specs.Words.{SameWords};
ghost use Rattle.entry.specs.Lent.{CallsIn};

use arrival::Arrived;
use completion::{Refusal, Reply};
use memory::words::Words;
use model::{Call, Request};

// A write (Submitter::write).
pub fn write(
    q: Request,
    counts: &mut [u64; 3],
    rows: &mut [u64],
    words: &mut Words,
    pool: &mut [u8],
) -> Reply
    ensures same { SameWords words.old words.new }
    ensures calls { CallsIn (Call.Write q) counts.old rows.old words.old pool.old result counts.new rows.new words.new pool.new }
{
    if !crate::wholerows::fits_words(rows, words, pool) {
        return Reply::No(Refusal::Unfit);
    }
    let c = crate::words::counts_of(*counts);
    let at = optable::touched::place(Call::Write(q), c, words.view().free) as usize;
    let row = abi::rows::row_at(rows, at);
    let store = &mut *words.store;
    let free = &mut *words.free;
    let t = queuecore::dispatch::write(q, row, c, rows.len() / 16, store, free, words.owners);
    crate::words::put_touched(t, at, c, counts, rows)
}

// A read (Submitter::read_page).
pub fn read_page(
    q: Request,
    counts: &mut [u64; 3],
    rows: &mut [u64],
    words: &mut Words,
    pool: &mut [u8],
) -> Reply
    ensures same { SameWords words.old words.new }
    ensures calls { CallsIn (Call.ReadPage q) counts.old rows.old words.old pool.old result counts.new rows.new words.new pool.new }
{
    if !crate::wholerows::fits_words(rows, words, pool) {
        return Reply::No(Refusal::Unfit);
    }
    let c = crate::words::counts_of(*counts);
    let at = optable::touched::place(Call::ReadPage(q), c, words.view().free) as usize;
    let row = abi::rows::row_at(rows, at);
    let store = &mut *words.store;
    let free = &mut *words.free;
    let t = queuecore::dispatch::read_page(q, row, c, rows.len() / 16, store, free, words.owners);
    crate::words::put_touched(t, at, c, counts, rows)
}

// An answer or a flush result arrives (Table::finish and flushed).
pub fn arrive(
    qtag: u64,
    what: Arrived,
    counts: &mut [u64; 3],
    rows: &mut [u64],
    words: &mut Words,
    pool: &mut [u8],
) -> Reply
    ensures same { SameWords words.old words.new }
    ensures calls { CallsIn (arrived_call qtag what) counts.old rows.old words.old pool.old result counts.new rows.new words.new pool.new }
{
    if !crate::wholerows::fits_words(rows, words, pool) {
        return Reply::No(Refusal::Unfit);
    }
    let c = crate::words::counts_of(*counts);
    let at = optable::touched::place(arrival::call_of(qtag, what), c, words.view().free) as usize;
    let row = abi::rows::row_at(rows, at);
    let n = rows.len() / 16;
    let t = arrival::arrive(qtag, what, row, c, n, words, pool);
    crate::words::put_touched(t, at, c, counts, rows)
}

// The oldest completion is taken: no row is touched.
pub fn take(counts: &mut [u64; 3], rows: &mut [u64], words: &mut Words, pool: &mut [u8]) -> Reply
    ensures same { SameWords words.old words.new }
    ensures calls { CallsIn Call.Take counts.old rows.old words.old pool.old result counts.new rows.new words.new pool.new }
{
    if !crate::wholerows::fits_words(rows, words, pool) {
        return Reply::No(Refusal::Unfit);
    }
    let c = crate::words::counts_of(*counts);
    let row = abi::rows::row_at(rows, 0);
    let store = &mut *words.store;
    let t = arrival::take::take(row, c, store, words.ready, words.owners);
    crate::words::put_counted(t, c, counts)
}
