// The store's poison, written into its words (store-io's store.rs and domain/mod.rs: poison), and the call that reports it.
ghost use Rattle.std.specs.Prelude.{◌≡◌};
ghost use Rattle.marks.specs.Marks.{poisoned_in, MarksTo};
ghost use Rattle.model.specs.declared.Call.TheVariants as Call;

use completion::Reply;
use domain::FirstCause;
use model::Row;
use optable::Frees;
use optable::touched::Touched;

// Poisons the store with a cause; the first is kept (Domain::poison). Nothing where the words are too few.
pub fn poison(store: &mut [u64], cause: FirstCause)
    ensures { store.new ≡ poisoned_in cause store.old }
{
    if store.len() < memory::HEAD {
        return;
    }
    if store[memory::POISON] != 0 {
        return;
    }
    store[memory::POISON] = 1;
    store[memory::CAUSE_OP] = memory::causes::op_word(cause.op);
    store[memory::CAUSE_HAS] = memory::causes::has_word(cause.raw);
    store[memory::CAUSE_RAW] = memory::causes::raw_word(cause.raw);
}

// "report poison with a cause (the first is kept)"
pub fn report_poison(row: Row, store: &mut [u64], cause: FirstCause) -> Touched
    ensures { MarksTo (Call.ReportPoison cause) row store.old result store.new }
{
    poison(store, cause);
    Touched {
        row,
        accepts: false,
        frees: Frees::Nothing,
        reply: Reply::Ok,
    }
}
