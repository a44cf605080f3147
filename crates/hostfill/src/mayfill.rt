// Where the host may write in a trace: a stretch of a buffer that it holds, or of a read's piece under way.
ghost use Rattle.std.specs.Prelude.{◌≡◌, length};
ghost use Rattle.hostfill.specs.MayFill.{Covers, TellsRow, TellsLoose, TellsFill};

use model::{Awaits, Kind, Row, Split};

// Whether a read's piece under way has at least `end` bytes.
fn read_covers(store: &[u64], handle: u64, kind: Kind, split: Split, end: u64) -> bool
    ensures { Covers store.now handle kind split end result }
{
    match kind {
        Kind::Page { .. } => false,
        Kind::Read { .. } => end <= arrival::advance::piece_of(store, handle, kind, split).count,
    }
}

// Whether a row awaits a read's piece in buffer b, and the piece has at least `end` bytes.
fn loose_row(store: &[u64], row: Row, b: u64, end: u64) -> bool
    ensures { TellsRow row store.now b end result }
{
    if row.buffer != b {
        return false;
    }
    match row.awaits {
        Awaits::Piece(kind, split) => read_covers(store, row.handle, kind, split, end),
        _ => false,
    }
}

// Whether some row of the table does.
fn any_loose(store: &[u64], rows: [Row; 64], b: u64, end: u64) -> bool
    ensures { TellsLoose rows store.now b end result }
{
    let depth = crate::pool::word(store, 1) as usize;
    for row in &rows[..depth.min(64)] {
        if loose_row(store, *row, b, end) {
            return true;
        }
    }
    false
}

// Whether the host may write a stretch: of whatever numbers.
pub fn may_fill(
    rows: [Row; 64],
    store: &[u64],
    owners: &[u64],
    pool: &[u8],
    b: u64,
    at: u64,
    n: u64,
) -> bool
    ensures { TellsFill rows store.now owners.now pool.now b at n result }
{
    let buffers = crate::pool::word(store, 4);
    let capacity = crate::pool::word(store, 5);
    if !crate::pool::in_pool(buffers, capacity, pool, b, at, n) {
        return false;
    }
    if crate::pool::word(owners, b as usize) == 0 {
        return true;
    }
    any_loose(store, rows, b, at + n)
}
