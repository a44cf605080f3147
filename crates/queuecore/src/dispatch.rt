// Which function a call goes to (the arms of store-io's queue_core.rs and submitter/mod.rs), once the lengths are found to be the opening's.
ghost use Rattle.std.specs.Prelude.{List, ℕ};
ghost use Rattle.memory.specs.Words.{SameWords};
ghost use Rattle.optable.specs.Called.{ArmTo};
ghost use Rattle.arrival.specs.Lent.{ArmIn};

use arrival::Arrived;
use memory::words::Words;
use model::{Call, Counts, Request, Row};
use optable::touched::Touched;

// A write is submitted.
pub fn write(
    q: Request,
    row: Row,
    counts: Counts,
    rows: usize,
    store: &[u64],
    free: &[u64],
    owners: &mut [u64],
) -> Touched
    ensures { (ready pool : List ℕ) → ArmTo (Call.Write q) row counts rows
        store.now free.now ready owners.old pool
        result store.now free.now ready owners.new pool }
{
    let v = submission::write(counts, store, free, owners, q);
    submission::issue::issue(v, row, counts.submissions, owners, q)
}

// A read is submitted.
pub fn read_page(
    q: Request,
    row: Row,
    counts: Counts,
    rows: usize,
    store: &[u64],
    free: &[u64],
    owners: &mut [u64],
) -> Touched
    ensures { (ready pool : List ℕ) → ArmTo (Call.ReadPage q) row counts rows
        store.now free.now ready owners.old pool
        result store.now free.now ready owners.new pool }
{
    let v = submission::read_page(counts, store, free, owners, q);
    submission::issue::issue(v, row, counts.submissions, owners, q)
}

// One call, with the row that it touches given, once the lengths are found to be the opening's.
pub fn arm(
    call: Call,
    row: Row,
    counts: Counts,
    rows: usize,
    words: &mut Words,
    pool: &mut [u8],
) -> Touched
    ensures same { SameWords words.old words.new }
    ensures arm { ArmIn call row counts rows words.old pool.old result words.new pool.new }
{
    match call {
        Call::Write(q) => {
            let store = &mut *words.store;
            let free = &mut *words.free;
            write(q, row, counts, rows, store, free, words.owners)
        }
        Call::ReadPage(q) => {
            let store = &mut *words.store;
            let free = &mut *words.free;
            read_page(q, row, counts, rows, store, free, words.owners)
        }
        Call::Answer {
            qtag,
            answer,
            back,
            flushes,
        } => {
            let what = Arrived::Answer {
                answer,
                back,
                flushes,
            };
            arrival::arrive(qtag, what, row, counts, rows, words, pool)
        }
        Call::Flushed { qtag, result } => {
            arrival::arrive(
                qtag,
                Arrived::Flushed(result),
                row,
                counts,
                rows,
                words,
                pool,
            )
        }
        Call::Take => {
            let store = &mut *words.store;
            arrival::take::take(row, counts, store, words.ready, words.owners)
        }
        Call::SetGate { handle, gate } => marks::gate::set_gate(row, words.store, handle, gate),
        Call::SetReadOnly { handle, on } => {
            marks::gate::set_read_only(row, words.store, handle, on)
        }
        Call::SetForced { handle, on } => marks::gate::set_forced(row, words.store, handle, on),
        Call::ReportPoison(cause) => marks::poison::report_poison(row, words.store, cause),
    }
}
