// An operation is over: its row is free again, and its completion ready (store-io's optable.rs: release; settle.rs's publish as document 01
// restates it).
ghost use Rattle.std.specs.Prelude.{◌≡◌, slice_set};
ghost use Rattle.memory.specs.declared.liveregion.LiveRegion.{LiveRegion};
ghost use Rattle.memory.specs.Words.{SameWords};
ghost use Rattle.ring.specs.Queue.{published};
ghost use Rattle.step.specs.Step.{raised, completion_of};
ghost use Rattle.arrival.specs.Carried.{pushed, owner_word, poisoned_by};
ghost use Rattle.arrival.specs.Lent.{CarriedIn};
ghost use Rattle.settle.specs.declared.Finished.TheVariants as Finished;

use completion::{Completion, Held, Reply};
use domain::FirstCause;
use memory::words::Words;
use model::{Counts, Opening, Row};
use optable::Frees;
use optable::touched::Touched;
use settle::End;

// A row goes on top of the free stack, which starts one place lower.
pub fn push(free: &mut [u64], live: u64, row: u64)
    ensures { free.new ≡ pushed live row free.old }
{
    if live == 0 {
        return;
    }
    let at = (live - 1) as usize;
    if at < free.len() {
        free[at] = row;
    }
}

// The owner's word of a buffer: `back` if it came back, else 2, lost.
fn owner_word(back: u64, buf: Option<Held>) -> u64
    ensures { result ≡ owner_word back buf }
{
    match buf {
        Some(_) => back,
        None => 2,
    }
}

// Who has a buffer, by whether it came back: `back` if it did, else nobody any more.
pub fn own(owners: &mut [u64], buffer: u64, back: u64, buf: Option<Held>)
    ensures { owners.new ≡ slice_set owners.old buffer (owner_word back buf) }
{
    let word = owner_word(back, buf);
    let at = buffer as usize;
    if at < owners.len() {
        owners[at] = word;
    }
}

// The store is poisoned, if there is a cause.
fn poison(store: &mut [u64], cause: Option<FirstCause>)
    ensures { store.new ≡ poisoned_by cause store.old }
{
    if let Some(c) = cause {
        marks::poison::poison(store, c);
    }
}

// A generation raised by one, back to 0 after the last.
fn next_generation(generation: u32) -> u32
    ensures { result ≡ raised generation }
{
    generation.wrapping_add(1)
}

// A completion is ready (publish): who has its buffer, and the store's poison.
fn complete(end: End, row: Row, depth: u64, count: u64, words: &mut Words)
    ensures same { SameWords words.old words.new }
    ensures store { words.new.store.now ≡ poisoned_by end.cause words.old.store.now }
    ensures ready { words.new.ready.now ≡ published depth count (completion_of row end.outcome end.buf) words.old.ready.now }
    ensures owners { words.new.owners.now ≡ slice_set words.old.owners.now row.buffer (owner_word 1 end.buf) }
    ensures free { words.new.free.now ≡ words.old.free.now }
{
    let done = Completion {
        tag: row.tag,
        outcome: end.outcome,
        buf: end.buf,
    };
    ring::publish::publish(words.ready, depth, count, done);
    own(words.owners, row.buffer, 1, end.buf);
    poison(words.store, end.cause);
}

// An operation is over (release): its bytes turn, its row is free again at the next generation, and its completion is ready.
pub fn release(
    end: End,
    qtag: u64,
    row: Row,
    o: Opening,
    counts: Counts,
    words: &mut Words,
    pool: &mut [u8],
) -> Touched
    ensures same { SameWords words.old words.new }
    ensures carried { (g : LiveRegion) → CarriedIn (Finished.Ended end) qtag row o g counts words.old pool.old result words.new pool.new }
{
    crate::advance::turn(pool, o.capacity, row.buffer, end.turn);
    push(words.free, counts.live, qtag % 0x1_0000_0000);
    complete(end, row, o.depth, counts.ready, words);
    Touched {
        row: optable::freed_row(next_generation(row.generation)),
        accepts: false,
        frees: Frees::Completed,
        reply: Reply::Done { qtag },
    }
}
