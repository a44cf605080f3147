// Rows as words, 16 each (specs/RowWords.antt), for a host that cannot lend records: what optable::rows does over records
// (store-io's optable.rs: Table's rows).
ghost use Rattle.std.specs.Prelude.{◌≡◌, [], ◌∷◌, ◌/◌, ◌≤◌, min, length, get_or, set};
ghost use Rattle.model.specs.State.{freed};
ghost use Rattle.model.specs.Memory.{rows_opened};
ghost use Rattle.abi.specs.RowWords.{awaits_in, row_in, awaits_words, words_of, AwaitsFits, RowFits, rows_in, row_put, rows_cleared};

use completion::WriteTicket;
use model::{Awaits, Kind, Row, Split};
use regionmap::Position;

// What a row awaits, of words 6 to 13.
fn awaits_of(w: &[u64]) -> Awaits
    requires { 16 ≤ length w.now }
    ensures { result ≡ awaits_in w.now }
{
    let kind = w[6];
    let split = Split {
        total: w[9],
        done: w[10],
    };
    match kind {
        0 => Awaits::Nothing,
        1 => Awaits::Piece(
            Kind::Page {
                start: Position(w[7]),
                end: Position(w[8]),
            },
            split,
        ),
        2 => Awaits::Piece(
            Kind::Read {
                start: Position(w[7]),
                end: Position(w[8]),
            },
            split,
        ),
        _ => Awaits::Flush(WriteTicket {
            volume: w[9],
            region: w[10],
            generation: (w[11] % 4294967296) as u32,
            start: Position(w[7]),
            end: Position(w[8]),
            need: w[12],
            epoch: w[13],
        }),
    }
}

// The row in 16 words.
fn row_of(w: &[u64]) -> Row
    requires { 16 ≤ length w.now }
    ensures { result ≡ row_in w.now }
{
    Row {
        generation: (w[0] % 4294967296) as u32,
        tag: w[1],
        seq: w[2],
        handle: w[3],
        buffer: w[4],
        durable: w[5] != 0,
        awaits: awaits_of(w),
    }
}

// The row at a place; one that awaits nothing where there is none (optable::rows::find).
pub fn row_at(words: &[u64], at: usize) -> Row
    ensures { result ≡ get_or (rows_in words.now) at (freed 0) }
{
    if at < words.len() / 16 {
        let from = 16 * at;
        let end = from + 16;
        row_of(&words[from..end])
    } else {
        optable::freed_row(0)
    }
}

// Words 6 to 15 of a row that awaits a piece.
fn piece_words(kind: Kind, s: Split) -> [u64; 10]
    ensures { result ≡ awaits_words (Awaits.Piece kind s) }
{
    match kind {
        Kind::Page { start, end } => [1, start.0, end.0, s.total, s.done, 0, 0, 0, 0, 0],
        Kind::Read { start, end } => [2, start.0, end.0, s.total, s.done, 0, 0, 0, 0, 0],
    }
}

// Words 6 to 15.
fn awaits_words(awaits: Awaits) -> [u64; 10]
    ensures { (result ≡ awaits_words awaits) × AwaitsFits awaits }
{
    match awaits {
        Awaits::Nothing => [0, 0, 0, 0, 0, 0, 0, 0, 0, 0],
        Awaits::Piece(kind, s) => piece_words(kind, s),
        Awaits::Flush(t) => [
            3,
            t.start.0,
            t.end.0,
            t.volume,
            t.region,
            t.generation as u64,
            t.need,
            t.epoch,
            0,
            0,
        ],
    }
}

// The 16 words of a row, which lies in them.
fn words_of(row: Row) -> [u64; 16]
    ensures { (result ≡ words_of row) × RowFits row }
{
    let a = awaits_words(row.awaits);
    let durable = memory::flag_word(row.durable);
    [
        row.generation as u64,
        row.tag,
        row.seq,
        row.handle,
        row.buffer,
        durable,
        a[0],
        a[1],
        a[2],
        a[3],
        a[4],
        a[5],
        a[6],
        a[7],
        a[8],
        a[9],
    ]
}

// A row is put at a place; nothing changes where there is none (optable::rows::claim, and release).
pub fn put_row(words: &mut [u64], at: usize, row: Row)
    ensures { (rows_in words.new ≡ set (rows_in words.old) at row) ×
        (words.new ≡ row_put at row words.old) }
{
    if at < words.len() / 16 {
        let w = words_of(row);
        memory::fill::put_words(&w, words, 16 * at);
    }
}

// The first rows, as many as the depth, await nothing at generation 0, and no other word changes (optable::rows::new). Where there are fewer, all of
// them.
pub fn clear(words: &mut [u64], depth: usize)
    ensures { (rows_in words.new ≡ rows_opened (min depth (length (rows_in words.old))) (rows_in words.old)) ×
        (words.new ≡ rows_cleared (min depth (length words.old / 16)) words.old) }
{
    let n = depth.min(words.len() / 16);
    memory::fill::zeros(words, 16 * n);
}
