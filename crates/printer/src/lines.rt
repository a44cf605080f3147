// The lines that both programs print, written.
ghost use Rattle.std.specs.Prelude.{◌≡◌, ◌++◌, ◌+◌, ◌≤◌, length, take};
ghost use Rattle.completion.specs.Numbers.{number};
ghost use Rattle.printer.specs.Texts.{no_word, piece_text, numbered, bad_text};
ghost use Rattle.printer.specs.Line.{said, SameLine};

use crate::bytes::Line;
use completion::Refusal;

// `piece QTAG OFFSET COUNT`
#[tactic(auto, unfolding(crate::specs::Texts::piece_word, crate::specs::Texts::piece_text))]
pub fn piece_text(line: &mut Line, qtag: u64, offset: u64, count: u64)
    requires { line.old.len + 128 ≤ length line.old.out.now }
    ensures same { SameLine line.old line.new }
    ensures text { said line.new ≡ said line.old ++ piece_text qtag offset count }
    ensures room { line.new.len ≤ line.old.len + 128 }
{
    line.put(b"piece");
    line.put_spaced(qtag);
    line.put_spaced(offset);
    line.put_spaced(count);
    line.put(b"\n")
}

// A word of at most 6 letters, a number and the line's end.
#[tactic(auto, unfolding(crate::specs::Texts::numbered))]
pub fn numbered_text(line: &mut Line, word: &[u8], n: u64)
    requires { (length word.now ≤ 6) × (line.old.len + 128 ≤ length line.old.out.now) }
    ensures same { SameLine line.old line.new }
    ensures text { said line.new ≡ said line.old ++ numbered word.now n }
    ensures room { line.new.len ≤ line.old.len + 128 }
{
    line.put(word);
    line.put_spaced(n);
    line.put(b"\n")
}

// `bad` and the line's number
#[tactic(auto, unfolding(crate::specs::Texts::bad_word, crate::specs::Texts::bad_text))]
pub fn bad_text(n: u64, out: &mut [u8; 128]) -> usize
    ensures { (result ≤ 128) × (take result out.new ≡ bad_text n) }
{
    let mut line = Line { out, len: 0 };
    numbered_text(&mut line, b"bad", n);
    line.len
}

// `no` and the refusal's number
#[tactic(auto, unfolding(crate::specs::Texts::no_word))]
pub fn no_text(line: &mut Line, refusal: Refusal)
    requires { line.old.len + 128 ≤ length line.old.out.now }
    ensures same { SameLine line.old line.new }
    ensures text { said line.new ≡ said line.old ++ numbered no_word (number refusal) }
    ensures room { line.new.len ≤ line.old.len + 128 }
{
    numbered_text(line, b"no", completion::refusals::number_of(refusal))
}
