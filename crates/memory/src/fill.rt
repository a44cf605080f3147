// How an opening fills the words that are lent: what it writes stands at the front of each part, and nothing behind it changes.
ghost use Rattle.std.specs.Prelude.{◌≡◌, ◌++◌, ◌+◌, ◌*◌, ◌≤◌, length, take, drop, replicate};
ghost use Rattle.model.specs.State.{up_from};
ghost use Rattle.model.specs.Memory.{store_opened};
ghost use Rattle.model.specs.Opening.{HEAD, REGION};

use crate::{HEAD, REGION, flag_word};
use model::{Lengths, Opening};

// All words of src, copied to dst from `at` on.
pub fn put_words(src: &[u64], dst: &mut [u64], at: usize)
    requires { at + length src.now ≤ length dst.old }
    ensures { dst.new ≡ take at dst.old ++ src.now ++ drop (at + length src.now) dst.old }
{
    dst[at..at + src.len()].copy_from_slice(src);
}

// The first n words become 0.
pub fn zeros(dst: &mut [u64], n: usize)
    requires { n ≤ length dst.old }
    ensures { dst.new ≡ replicate n 0 ++ drop n dst.old }
{
    dst[..n].fill(0);
}

// The first n words become 0, 1, 2 and so on: the free stack at first, row 0 on top.
pub fn count_up(dst: &mut [u64], n: usize)
    requires { n ≤ length dst.old }
    ensures { dst.new ≡ up_from 0 n ++ drop n dst.old }
{
    for (i, word) in dst[..n].iter_mut().enumerate() {
        *word = i as u64;
    }
}

// The settings, the lengths, no poison, open gates, and then the plan's regions.
pub fn put_store(o: Opening, plan: &[u64], l: Lengths, store: &mut [u64])
    requires { (o.regions ≤ 8) × ((REGION * o.regions ≤ length plan.now) × (HEAD + REGION * o.regions ≤ length store.old)) }
    ensures { store.new ≡ store_opened o plan.now l store.old }
{
    let read_only = flag_word(o.read_only);
    let flush = flag_word(o.flush);
    let head = [
        o.block, o.depth, o.lifetime, o.card, o.buffers, o.capacity, read_only, flush, o.volume,
        o.class, o.label, o.epoch, o.regions, l.rows, l.store, l.free, l.ready, l.owners, l.pool,
    ];
    let regions = o.regions as usize;
    let n = REGION * regions;
    zeros(store, HEAD);
    put_words(&head, store, 0);
    put_words(&plan[..n], store, HEAD);
}
