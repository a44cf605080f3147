// The region's record and the store's poison, read from the store's words (store-io's store.rs: LiveRegion, and Inner's domain).
ghost use Rattle.std.specs.Prelude.{◌≡◌, ◌≤◌, length};
ghost use Rattle.model.specs.Memory.{gate_in, poison_in};
ghost use Rattle.memory.specs.Live.{InStore, region_of, live_of};
ghost use Rattle.model.specs.Opening.{HEAD};

use crate::{CAUSE_HAS, CAUSE_OP, CAUSE_RAW, FORCED, GATE, HEAD, POISON, READ_ONLY, REGION};
use domain::FirstCause;
use model::Gate;

// What a submission is asked about its region: LiveRegion without its map, which stays where it lies (D-5).
#[derive(Clone, Copy)]
pub struct LiveRegion {
    pub id: u64,
    pub generation: u64,
    pub data: u64,
    pub gate: Gate,
    pub read_only: bool,
    pub forced: bool,
}

// A gate in a word.
#[tactic(auto, unfolding(model::specs::Memory::gate_in, layout::specs::Pick::pick))]
fn gate_of(word: u64) -> Gate
    ensures { result ≡ gate_in word }
{
    match word {
        0 => Gate::Open,
        1 => Gate::Recycled,
        _ => Gate::Released,
    }
}

// The region at a handle; blank where the words are too few.
pub fn region_at(store: &[u64], handle: u64) -> LiveRegion
    ensures { InStore store.now handle → result ≡ live_of (region_of store.now handle) }
{
    let blank = LiveRegion {
        id: 0,
        generation: 0,
        data: 0,
        gate: Gate::Open,
        read_only: false,
        forced: false,
    };
    if 8 <= handle {
        return blank;
    }
    let h = handle as usize;
    let at = HEAD + REGION * h;
    if store.len() < at + REGION {
        return blank;
    }
    LiveRegion {
        id: store[at],
        generation: store[at + 1],
        data: store[at + 4],
        gate: gate_of(store[GATE + 3 * h]),
        read_only: store[READ_ONLY + 3 * h] != 0,
        forced: store[FORCED + 3 * h] != 0,
    }
}

// Whether the store is poisoned, and by which cause first (Domain::poisoned); not poisoned where the words are too few.
pub fn poisoned(store: &[u64]) -> Option<FirstCause>
    ensures { HEAD ≤ length store.now → result ≡ poison_in store.now }
{
    if store.len() < HEAD || store[POISON] == 0 {
        return None;
    }
    Some(crate::causes::cause_of(store[CAUSE_OP], store[CAUSE_HAS], store[CAUSE_RAW]))
}
