// The oldest of the ready completions, read from the queue's words (store-io's optable.rs: take).
ghost use Rattle.std.specs.Prelude.{◌≡◌};
ghost use Rattle.ring.specs.Queue.{Ring, oldest_in};

use completion::{Completion, Held, Outcome};
use model::Opening;

// The oldest completion; a blank one where the words hold no ring.
pub fn oldest(ready: &[u64], o: Opening) -> Completion
    ensures { Ring o.depth ready.now → result ≡ oldest_in o ready.now }
{
    if crate::ring(ready, o.depth) {
        let at = crate::place(ready, o.depth, 0);
        let end = at + 16;
        crate::decode::completion_of(&ready[at..end], o)
    } else {
        Completion {
            tag: 0,
            outcome: Outcome::Read { len: 0 },
            buf: None,
        }
    }
}
