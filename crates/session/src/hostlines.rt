// What the host does between calls, answered: `fill`, `sum` and `rows`.
ghost use Rattle.std.specs.Prelude.{◌≡◌, ◌≤◌, take};
ghost use Rattle.optable.specs.Called.{lent_of};
ghost use Rattle.session.specs.Host.{FillsIn, summed, ListsIn};

use completion::Reply;
use model::{Counts, Row};

// `fill BUFFER AT LENGTH SEED`
pub fn fill_line(
    b: u64,
    at: u64,
    n: u64,
    seed: u64,
    number: u64,
    rows: [Row; 64],
    store: &[u64],
    owners: &[u64],
    pool: &mut [u8],
    out: &mut [u8; 4096],
) -> usize
    ensures { (result ≤ 4096) × FillsIn b at n seed number rows store.now owners.now pool.old pool.new
        (take result out.new) }
{
    if !hostfill::mayfill::may_fill(rows, store, owners, pool, b, at, n) {
        return printer::output::say_bad(number, out);
    }
    let capacity = hostfill::pool::word(store, 5);
    let place = b * capacity + at;
    hostfill::pool::fill(pool, place as usize, n as usize, seed);
    printer::output::say_reply(Reply::Ok, out)
}

// `sum BUFFER AT LENGTH`
pub fn sum_line(
    b: u64,
    at: u64,
    n: u64,
    number: u64,
    store: &[u64],
    pool: &[u8],
    out: &mut [u8; 4096],
) -> usize
    ensures { (result ≤ 4096) × (take result out.new ≡ summed b at n number store.now pool.now) }
{
    let buffers = hostfill::pool::word(store, 4);
    let capacity = hostfill::pool::word(store, 5);
    if !hostfill::pool::in_pool(buffers, capacity, pool, b, at, n) {
        return printer::output::say_bad(number, out);
    }
    let from = (b * capacity + at) as usize;
    let to = from + n as usize;
    printer::output::say_sum(hostfill::pool::sum(&pool[from..to]), out)
}

// `rows`
pub fn rows_line(
    counts: Counts,
    rows: [Row; 64],
    store: &[u64],
    free: &[u64],
    out: &mut [u8; 4096],
) -> usize
    ensures { (result ≤ 4096) × ListsIn counts rows store.now free.now (take result out.new) }
{
    let depth = hostfill::pool::word(store, 1) as usize;
    printer::output::say_rows(depth, counts.live as usize, rows, free, out)
}
