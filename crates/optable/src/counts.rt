// The counts, lent (store-io's optable.rs: Table's live, ready and next_seq).
ghost use Rattle.std.specs.Prelude.{◌≡◌};
ghost use Rattle.optable.specs.Counted.{accepted_if, released_by};

use crate::Frees;
use model::Counts;

// The counts, lent on and updated (live and ready of Table::release, abort and publish).
pub fn release(counts: &mut Counts, r: Frees)
    ensures { counts.new ≡ released_by r counts.old }
{
    *counts = crate::released(*counts, r);
}

// The counts, lent on and updated (live and next_seq of Table::start).
pub fn accept(counts: &mut Counts, accepts: bool)
    ensures { counts.new ≡ accepted_if accepts counts.old }
{
    *counts = crate::accepted(*counts, accepts);
}
