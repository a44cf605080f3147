// The marks of the regions and the store's poison, written into the store's words (store-io's gate.rs and lifecycle.rs as document 01 restates
// them).
//
// gate    the calls that set a region's gate, its read-only or its forced mark
// poison  the store's poison, and the call that reports it
#![tactic(auto)]

pub mod gate;
pub mod poison;

ghost use Rattle.std.specs.Prelude.{◌≡◌};
ghost use Rattle.marks.specs.Marks.{gate_word, marked_in};

use model::Gate;

// A gate's word.
pub fn gate_word(gate: Gate) -> u64
    ensures { result ≡ gate_word gate }
{
    match gate {
        Gate::Open => 0,
        Gate::Recycled => 1,
        Gate::Released => 2,
    }
}

// Writes a region's mark, 0 its gate, 1 read-only, 2 forced; nothing where there is no such word.
pub fn put_mark(store: &mut [u64], handle: u64, mark: u64, word: u64)
    ensures { store.new ≡ marked_in handle mark word store.old }
{
    if 8 <= handle {
        return;
    }
    if 3 <= mark {
        return;
    }
    let at = memory::GATE + 3 * handle as usize + mark as usize;
    if at < store.len() {
        store[at] = word;
    }
}
