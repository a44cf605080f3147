// The parts of which the lines of replies are made, each put at a line's end.
ghost use Rattle.std.specs.Prelude.{◌≡◌, [], ◌∷◌, ◌++◌, ◌+◌, ◌*◌, ◌≤◌, length};
ghost use Rattle.printer.specs.Spaced.{spaced};
ghost use Rattle.printer.specs.Parts.{fields_of, bit, range_text, need_text, read_word, flush_text};
ghost use Rattle.printer.specs.Line.{said, SameLine};

use crate::bytes::Line;
use completion::{Range, WriteTicket};

// Puts a word and numbers, each behind a space.
#[tactic(auto, unfolding(crate::specs::Parts::fields_of), using(crate::proofs::Numbers::numbers))]
pub fn put_fields(line: &mut Line, word: &[u8], numbers: &[u64])
    requires { line.old.len + length word.now + 21 * length numbers.now ≤ length line.old.out.now }
    ensures same { SameLine line.old line.new }
    ensures text { said line.new ≡ said line.old ++ fields_of word.now numbers.now }
    ensures room { line.new.len ≤ line.old.len + length word.now + 21 * length numbers.now }
{
    line.put(word);
    for n in numbers {
        line.put_spaced(*n);
    }
}

// A flag as a number.
#[tactic(auto, unfolding(crate::specs::Parts::bit, layout::specs::Pick::pick))]
pub fn bit_of(b: bool) -> u64
    ensures { result ≡ bit b }
{
    u64::from(b)
}

// Puts a word, a region and a range.
#[tactic(auto, unfolding(crate::specs::Parts::range_text))]
pub fn put_range(line: &mut Line, word: &[u8], range: Range)
    requires { line.old.len + length word.now + 63 ≤ length line.old.out.now }
    ensures same { SameLine line.old line.new }
    ensures text { said line.new ≡ said line.old ++ range_text word.now range }
    ensures room { line.new.len ≤ line.old.len + length word.now + 63 }
{
    let numbers = [range.region, range.start.0, range.end.0];
    put_fields(line, word, &numbers)
}

// Puts a word, a ticket's range and a need.
#[tactic(auto, unfolding(crate::specs::Parts::need_text))]
pub fn put_need(line: &mut Line, word: &[u8], ticket: WriteTicket, need: u64)
    requires { line.old.len + length word.now + 63 ≤ length line.old.out.now }
    ensures same { SameLine line.old line.new }
    ensures text { said line.new ≡ said line.old ++ need_text word.now ticket need }
    ensures room { line.new.len ≤ line.old.len + length word.now + 63 }
{
    let numbers = [ticket.start.0, ticket.end.0, need];
    put_fields(line, word, &numbers)
}

// Puts a word, a region, a range and an OS error.
pub fn put_raw(line: &mut Line, word: &[u8], range: Range, raw: u32)
    requires { line.old.len + length word.now + 84 ≤ length line.old.out.now }
    ensures same { SameLine line.old line.new }
    ensures text { said line.new ≡ said line.old ++ (range_text word.now range ++ spaced raw) }
    ensures room { line.new.len ≤ line.old.len + length word.now + 84 }
{
    put_range(line, word, range);
    line.put_spaced(raw as u64)
}

// Puts ` read LENGTH`.
pub fn put_read(line: &mut Line, len: u64)
    requires { line.old.len + 87 ≤ length line.old.out.now }
    ensures same { SameLine line.old line.new }
    ensures text { said line.new ≡ said line.old ++ fields_of read_word (len ∷ []) }
    ensures room { line.new.len ≤ line.old.len + 87 }
{
    let numbers = [len];
    put_fields(line, b" read", &numbers)
}

// `flush QTAG NEED`
#[tactic(auto, unfolding(crate::specs::Parts::flush_text))]
pub fn flush_text(line: &mut Line, qtag: u64, need: u64)
    requires { line.old.len + 128 ≤ length line.old.out.now }
    ensures same { SameLine line.old line.new }
    ensures text { said line.new ≡ said line.old ++ flush_text qtag need }
    ensures room { line.new.len ≤ line.old.len + 128 }
{
    line.put(b"flush");
    line.put_spaced(qtag);
    line.put_spaced(need);
    line.put(b"\n")
}

// A word alone, with its line's end.
pub fn word_text(line: &mut Line, word: &[u8])
    requires { (length word.now ≤ 8) × (line.old.len + 128 ≤ length line.old.out.now) }
    ensures same { SameLine line.old line.new }
    ensures text { said line.new ≡ said line.old ++ word.now }
    ensures room { line.new.len ≤ line.old.len + 128 }
{
    line.put(word)
}
