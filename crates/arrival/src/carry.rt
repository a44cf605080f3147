// What becomes of an operation is carried into the table: it is turned away, goes on, is over or is undone (store-io's optable.rs, by Finish).
ghost use Rattle.memory.specs.Words.{SameWords};
ghost use Rattle.arrival.specs.Lent.{CarriedIn};

use memory::liveregion::LiveRegion;
use memory::words::Words;
use model::{Counts, Opening, Row};
use optable::touched::Touched;
use settle::Finished;

// What becomes of an operation is carried into the table.
pub fn carry(
    f: Finished,
    qtag: u64,
    row: Row,
    o: Opening,
    g: LiveRegion,
    counts: Counts,
    words: &mut Words,
    pool: &mut [u8],
) -> Touched
    ensures same { SameWords words.old words.new }
    ensures carried { CarriedIn f qtag row o g counts words.old pool.old result words.new pool.new }
{
    match f {
        Finished::Away(refusal) => optable::touched::away(row, refusal),
        Finished::Next { awaits, turn } => {
            let store = &mut *words.store;
            crate::advance::go_on(awaits, turn, qtag, row, o.capacity, store, pool)
        }
        Finished::Ended(end) => crate::release::release(end, qtag, row, o, counts, words, pool),
        Finished::Rejected { raw, buf } => crate::abort::abort(
            raw,
            buf,
            qtag,
            row,
            g,
            counts.live,
            words.free,
            words.owners,
        ),
    }
}
