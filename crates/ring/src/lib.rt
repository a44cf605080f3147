// The ring in which the queue of ready completions lies, in words (store-io's optable.rs: Table's ready): word 0 is the place of the oldest, and the
// completion at place i of a ring of depth places lies from word 1 + 16 i on (the model's Memory).
//
// decode   a completion, of its 16 words
// encode   the 16 words of a completion
// oldest   the oldest completion
// publish  a completion becomes ready
#![tactic(auto)]

pub mod decode;
pub mod encode;
pub mod oldest;
pub mod publish;

ghost use Rattle.std.specs.Prelude.{◌≡◌};
ghost use Rattle.ring.specs.Queue.{Ring, ring_in, place_in, popped};

// Whether the words hold a ring of that depth.
#[tactic(auto, unfolding(crate::specs::Queue::ring_in))]
pub fn ring(ready: &[u64], depth: u64) -> bool
    ensures { result ≡ ring_in depth ready.now }
{
    0 < depth && depth <= 4096 && 1 + 16 * (depth as usize) <= ready.len()
}

// Where the words of the completion behind the first `count` start.
#[tactic(auto, using(crate::proofs::Places::place_steps), unfolding(crate::specs::Queue::place_in))]
pub fn place(ready: &[u64], depth: u64, count: u64) -> usize
    requires { Ring depth ready.now }
    ensures { result ≡ place_in depth count ready.now }
{
    let i = (ready[0] % depth + count % depth) % depth;
    1 + 16 * (i as usize)
}

// The oldest is gone: the next is the oldest (Table::take). Nothing where the words hold no ring.
#[tactic(auto, using(crate::proofs::Places::pop_steps))]
pub fn pop(ready: &mut [u64], depth: u64)
    ensures { ready.new ≡ popped depth ready.old }
{
    if ring(ready, depth) {
        ready[0] = (ready[0] % depth + 1) % depth;
    }
}
