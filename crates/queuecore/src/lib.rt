// How the calls meet (store-io's queue_core.rs): what a call does to all but the rows and the counts, and what it leaves of the row that it
// touches. A call with other lengths than the opening's is turned away here.
//
// dispatch  which function a call goes to
#![tactic(auto)]

pub mod dispatch;

ghost use Rattle.memory.specs.Words.{SameWords};
ghost use Rattle.arrival.specs.Lent.{TouchesIn};

use completion::Refusal;
use memory::words::Words;
use model::{Call, Counts, Row};
use optable::touched::Touched;

// One call, with the row that it touches given; 13 first.
pub fn touch(
    call: Call,
    row: Row,
    counts: Counts,
    rows: usize,
    words: &mut Words,
    pool: &mut [u8],
) -> Touched
    ensures same { SameWords words.old words.new }
    ensures touches { TouchesIn call row counts rows words.old pool.old result words.new pool.new }
{
    if !words.fits(rows, pool.len()) {
        return optable::touched::away(row, Refusal::Unfit);
    }
    crate::dispatch::arm(call, row, counts, rows, words, pool)
}
