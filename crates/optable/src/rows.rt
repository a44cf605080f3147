// The rows, as a lent slice of records (store-io's optable.rs: Table's rows).
ghost use Rattle.std.specs.Prelude.{◌≡◌, min, length, slice_index_or};
ghost use Rattle.model.specs.State.{freed};
ghost use Rattle.model.specs.Memory.{rows_opened};
ghost use Rattle.optable.specs.Claimed.{frees_row, claimable_of, releasable_of, claimed_in, released_in};

use crate::Frees;
use model::Row;

// The first rows, as many as the depth, await nothing at generation 0; the others stay (Table::new). Where there are fewer, all of them.
pub fn new(rows: &mut [Row], depth: usize)
    ensures { rows.new ≡ rows_opened (min depth (length rows.old)) rows.old }
{
    let n = depth.min(rows.len());
    rows[..n].fill(crate::freed_row(0));
}

// The row at a place; one that awaits nothing where there is none.
pub fn find(rows: &[Row], at: usize) -> Row
    ensures { result ≡ slice_index_or rows.now at (freed 0) }
{
    if at < rows.len() {
        rows[at]
    } else {
        crate::freed_row(0)
    }
}

// Whether a call gives its row back.
fn frees_row(frees: Frees) -> bool
    ensures { result ≡ frees_row frees }
{
    match frees {
        Frees::Nothing => false,
        Frees::Rejected => true,
        Frees::Completed => true,
        Frees::Taken => false,
    }
}

// How many of the rows a claim may write: all of them, and none where the call gives its row back.
fn claimable(rows: usize, frees: Frees) -> usize
    ensures { result ≡ claimable_of frees rows }
{
    if frees_row(frees) { 0 } else { rows }
}

// How many of the rows a release may write: all of them where the call gives its row back, else none.
fn releasable(rows: usize, frees: Frees) -> usize
    ensures { result ≡ releasable_of frees rows }
{
    if frees_row(frees) { rows } else { 0 }
}

// The row at a place is taken for an operation, or kept by one, as this row says (Table::claim). No row changes where there is none at the
// place, or where the call gives its row back.
pub fn claim(rows: &mut [Row], at: usize, row: Row, frees: Frees)
    ensures { rows.new ≡ claimed_in frees at row rows.old }
{
    let n = claimable(rows.len(), frees);
    if at < n {
        rows[at] = row;
    }
}

// The row at a place is given back, as this row says: free, at the next generation (Table::release) or at its own (Table::abort). No row changes
// where there is none at the place, or where the call gives none back.
pub fn release(rows: &mut [Row], at: usize, row: Row, frees: Frees)
    ensures { rows.new ≡ released_in frees at row rows.old }
{
    let n = releasable(rows.len(), frees);
    if at < n {
        rows[at] = row;
    }
}
