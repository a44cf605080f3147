// A completion becomes ready: its words are put behind the last of the queue (store-io's optable.rs: publish).
ghost use Rattle.std.specs.Prelude.{◌≡◌, ◌+◌, ◌≤◌, length};
ghost use Rattle.ring.specs.Queue.{placed, published};

use completion::Completion;

// Sixteen words, in their place.
#[tactic(auto, unfolding(crate::specs::Queue::placed, model::specs::Memory::over))]
fn put(ready: &mut [u64], at: usize, w: [u64; 16])
    requires { at + 16 ≤ length ready.old }
    ensures { ready.new ≡ placed at w ready.old }
{
    ready[at..at + 16].copy_from_slice(&w);
}

// A completion becomes ready, behind the `count` that are (Table::publish). Nothing where the words hold no ring.
#[tactic(auto, using(crate::proofs::Places::publish_steps))]
pub fn publish(ready: &mut [u64], depth: u64, count: u64, c: Completion)
    ensures { ready.new ≡ published depth count c ready.old }
{
    if crate::ring(ready, depth) {
        let at = crate::place(ready, depth, count);
        put(ready, at, crate::encode::words_of(c));
    }
}
