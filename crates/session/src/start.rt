// `start`: the table is opened in the program's memory, or the opening breaks a rule, or it is larger than that memory.
ghost use Rattle.std.specs.Prelude.{◌≡◌, ◌*◌, ◌≤◌, length, take};
ghost use Rattle.layout.specs.Pick.{pick};
ghost use Rattle.memory.specs.Words.{SameWords, lent_words};
ghost use Rattle.session.specs.Start.{keeps};
ghost use Rattle.session.specs.Lent.{StartsIn};

use memory::words::Words;
use model::{Lengths, Opening, Row};

// What became of an opening.
#[derive(Clone, Copy)]
pub enum Started {
    Table,
    // "breaks a rule"
    Refused,
    // "keeps all rules but is larger than the program's own memory"
    TooLarge,
}

// How many of the pool's bytes are lent: buffers × capacity, or all where there are fewer.
pub fn bytes_for(o: Opening, pool: &[u8]) -> usize
    ensures { (result ≤ length pool.now) × (take result pool.now ≡ take (o.buffers * o.capacity) pool.now) }
{
    let n = pool.len();
    let capacity = o.capacity as usize;
    let buffers = o.buffers as usize;
    if capacity == 0 {
        return 0;
    }
    if n / capacity < buffers {
        return n;
    }
    buffers * capacity
}

// Whether the opening keeps all rules: each part of the row memory would be as long as it needs.
fn keeps_rules(o: Opening, plan: &[u64]) -> bool
    ensures { result ≡ keeps o plan.now }
{
    if 4096 < o.depth {
        return false;
    }
    if 4096 < o.buffers {
        return false;
    }
    if 65536 < o.capacity {
        return false;
    }
    if 8 < o.regions {
        return false;
    }
    let l = Lengths {
        rows: o.depth,
        store: 48 + 70 * o.regions,
        free: o.depth,
        ready: 1 + 16 * o.depth,
        owners: o.buffers,
        pool: o.buffers * o.capacity,
    };
    opening::admits(o, plan, l)
}

// An opening that did not open: it keeps all rules, or breaks one.
fn not_opened(o: Opening, plan: &[u64]) -> Started
    ensures { result ≡ pick (keeps o plan.now) Started.TooLarge Started.Refused }
{
    if keeps_rules(o, plan) {
        return Started::TooLarge;
    }
    Started::Refused
}

// Opens the table in the program's memory, where it can be.
pub fn start(
    o: Opening,
    plan: &[u64],
    rows: &mut [Row; 64],
    words: &mut Words,
    pool: &[u8],
) -> Started
    ensures same { SameWords words.old words.new }
    ensures starts { StartsIn o plan.now (lent_words rows.old words.old pool.now) result rows.new words.new }
{
    let n = bytes_for(o, pool);
    match submitter::open(o, plan, rows, words, &pool[..n]) {
        Ok(_) => Started::Table,
        Err(_) => not_opened(o, plan),
    }
}
