// The opening's numbers, read from the store's words (store-io's store.rs: what Inner keeps of them), as one struct (D-30).
ghost use Rattle.std.specs.Prelude.{◌≡◌, ◌≤◌, length};
ghost use Rattle.model.specs.Memory.{settings_in};
ghost use Rattle.model.specs.Opening.{HEAD};

use crate::{HEAD, REGIONS};
use model::Opening;

// A blank opening, for words too few.
fn blank() -> Opening {
    Opening {
        block: 0,
        depth: 0,
        lifetime: 0,
        card: 0,
        buffers: 0,
        capacity: 0,
        read_only: false,
        flush: false,
        volume: 0,
        class: 0,
        label: 0,
        epoch: 0,
        regions: 0,
    }
}

// The numbers of the opening; blank where the words are too few.
pub fn settings(store: &[u64]) -> Opening
    ensures { HEAD ≤ length store.now → result ≡ settings_in store.now }
{
    if store.len() < HEAD {
        return blank();
    }
    Opening {
        block: store[0],
        depth: store[1],
        lifetime: store[2],
        card: store[3],
        buffers: store[4],
        capacity: store[5],
        read_only: store[6] != 0,
        flush: store[7] != 0,
        volume: store[8],
        class: store[9],
        label: store[10],
        epoch: store[11],
        regions: store[REGIONS],
    }
}
