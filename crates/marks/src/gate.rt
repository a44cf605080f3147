// The calls that set a region's gate, its read-only or its forced mark (store-io's gate.rs and lifecycle.rs as document 01 restates them): the mark
// is written into the store's words, or the handle is unknown and nothing changes.
ghost use Rattle.marks.specs.Marks.{SetsMark, MarksTo};
ghost use Rattle.model.specs.declared.Call.TheVariants as Call;

use completion::{Context, Refusal, Reply};
use model::{Gate, Row};
use optable::Frees;
use optable::touched::Touched;

// Sets a region's mark; "unknown handle: 1".
pub fn set_mark(row: Row, store: &mut [u64], handle: u64, mark: u64, word: u64) -> Touched
    ensures { SetsMark row handle mark word store.old result store.new }
{
    if store.len() < memory::HEAD {
        return optable::touched::away(row, Refusal::Unfit);
    }
    if store[memory::REGIONS] <= handle {
        return optable::touched::away(row, Refusal::ForeignPosition(Context::None));
    }
    crate::put_mark(store, handle, mark, word);
    Touched {
        row,
        accepts: false,
        frees: Frees::Nothing,
        reply: Reply::Ok,
    }
}

// Sets a region's gate.
pub fn set_gate(row: Row, store: &mut [u64], handle: u64, gate: Gate) -> Touched
    ensures { MarksTo (Call.SetGate handle gate) row store.old result store.new }
{
    set_mark(row, store, handle, 0, crate::gate_word(gate))
}

// Sets a region's read-only mark.
pub fn set_read_only(row: Row, store: &mut [u64], handle: u64, on: bool) -> Touched
    ensures { MarksTo (Call.SetReadOnly handle on) row store.old result store.new }
{
    set_mark(row, store, handle, 1, memory::flag_word(on))
}

// Sets a region's forced mark.
pub fn set_forced(row: Row, store: &mut [u64], handle: u64, on: bool) -> Touched
    ensures { MarksTo (Call.SetForced handle on) row store.old result store.new }
{
    set_mark(row, store, handle, 2, memory::flag_word(on))
}
