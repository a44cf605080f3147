// The table's rows and counts (store-io's optable.rs: Table). Here the counts by value, the free stack's top and a row that awaits nothing.
//
// counts   the counts, lent
// lookup   the lookups
// rows     the rows, lent
// start    whether there is room, and the row and tag of an accepted operation
// touched  what a call leaves of the row that it touches, and which row that is
#![tactic(auto)]

pub mod counts;
pub mod lookup;
pub mod rows;
pub mod start;
pub mod touched;

ghost use Rattle.std.specs.Prelude.{◌≡◌, slice_index};
ghost use Rattle.model.specs.State.{freed};
ghost use Rattle.optable.specs.Counted.{accepted_if, released_by};

use model::{Awaits, Counts, Row};

// A row that awaits nothing, at a generation (Row of Table::new, and of release).
pub fn freed_row(generation: u32) -> Row
    ensures { result ≡ freed generation }
{
    Row {
        generation,
        tag: 0,
        seq: 0,
        handle: 0,
        buffer: 0,
        durable: false,
        awaits: Awaits::Nothing,
    }
}

// The row on top of the free stack (the pop of Table::claim); 0 where there is none.
pub fn top(free: &[u64], live: u64) -> u64
    ensures { result ≡ slice_index free.now live }
{
    let at = live as usize;
    if at < free.len() { free[at] } else { 0 }
}

// One live row and one submission more, or the counts as they were; they wrap (D-19).
pub fn accepted(c: Counts, accepts: bool) -> Counts
    ensures { result ≡ accepted_if accepts c }
{
    if accepts {
        Counts {
            live: c.live.wrapping_add(1),
            submissions: c.submissions.wrapping_add(1),
            ..c
        }
    } else {
        c
    }
}

// What a call frees of the counts: nothing; a live row whose first piece was refused; a live row whose completion is ready; a completion that
// is taken.
#[derive(Clone, Copy)]
pub enum Frees {
    Nothing,
    Rejected,
    Completed,
    Taken,
}

// The counts with what a call frees.
pub fn released(c: Counts, r: Frees) -> Counts
    ensures { result ≡ released_by r c }
{
    match r {
        Frees::Nothing => c,
        Frees::Rejected => Counts {
            live: c.live.saturating_sub(1),
            ..c
        },
        Frees::Completed => Counts {
            live: c.live.saturating_sub(1),
            ready: c.ready.wrapping_add(1),
            ..c
        },
        Frees::Taken => Counts {
            ready: c.ready.saturating_sub(1),
            ..c
        },
    }
}
