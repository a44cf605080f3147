// The lengths of what is lent, against those that the opening kept in the store's words.
ghost use Rattle.std.specs.Prelude.{◌≡◌};
ghost use Rattle.model.specs.Memory.{same_lengths};

use crate::HEAD;
use model::Lengths;

// Whether what is lent to a later call has the lengths of the opening: "A later call with another length of row memory or pool gets 13 first."
#[tactic(auto, unfolding(model::specs::Memory::same_lengths))]
pub fn same_lengths(store: &[u64], l: Lengths) -> bool
    ensures { result ≡ same_lengths l store.now }
{
    HEAD <= store.len()
        && l.rows == store[13]
        && l.store == store[14]
        && l.free == store[15]
        && l.ready == store[16]
        && l.owners == store[17]
        && l.pool == store[18]
}
