// What an opening writes (store-io's store.rs and optable.rs: Table::new): nothing where a rule is broken, else the table, into what is lent.
ghost use Rattle.memory.specs.Words.{SameWords, lengths_lent};
ghost use Rattle.opening.specs.Prepared.{PreparedIn};

use memory::words::Words;
use model::Opening;

// Writes the table of an admitted opening into the row memory, but for the rows, whose number it returns; else none, and nothing is written.
pub fn prepare(
    o: Opening,
    plan: &[u64],
    rows: usize,
    words: &mut Words,
    pool: usize,
) -> Option<usize>
    ensures same { SameWords words.old words.new }
    ensures prepared { PreparedIn o plan.now (lengths_lent rows words.old pool) result words.old words.new }
{
    let l = words.lengths(rows, pool);
    if !crate::admits(o, plan, l) {
        return None;
    }
    let depth = o.depth as usize;
    let buffers = o.buffers as usize;
    memory::fill::put_store(o, plan, l, words.store);
    memory::fill::count_up(words.free, depth);
    memory::fill::zeros(words.ready, 1);
    memory::fill::zeros(words.owners, buffers);
    Some(depth)
}
