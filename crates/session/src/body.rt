// The lines of a trace after `start`, answered: over an open table, or after a refusal.
ghost use Rattle.std.specs.Prelude.{◌≡◌, List, ℕ, ◌≤◌, take};
ghost use Rattle.memory.specs.Words.{SameWords};
ghost use Rattle.fields.specs.Trace.{Kept};
ghost use Rattle.parser.specs.Said.{said_read};
ghost use Rattle.session.specs.Lent.{stood_in};
ghost use Rattle.session.specs.declared.Stage.TheVariants as Stage;
ghost use Rattle.session.specs.Opened.{refused_line, TableLine};

use crate::Host;
use fields::reader::Reader;
use memory::words::Words;
use parser::forms::Said;

// "after which every call prints `no 13`"
pub fn refused_line(r: Reader, text: &[u8; 4096], number: u64, out: &mut [u8; 4096]) -> usize
    ensures { (result ≤ 4096) ×
        ((bytes : List ℕ) → Kept r text.now bytes → take result out.new ≡ refused_line (said_read bytes) number) }
{
    let said = parser::lines::finish(r, text);
    match said {
        Said::Comment => 0,
        Said::Bad => printer::output::say_bad(number, out),
        _ => crate::preamble::say_no(out),
    }
}

// A line of an open table, over the first n bytes of the pool.
pub fn table_line(
    n: usize,
    r: Reader,
    text: &[u8; 4096],
    number: u64,
    host: &mut Host,
    words: &mut Words,
    pool: &mut [u8],
    out: &mut [u8; 4096],
) -> usize
    ensures same { SameWords words.old words.new }
    ensures by_index { (bytes : List ℕ) → Kept r text.now bytes → (plan : List ℕ) → TableLine n (said_read bytes) number
        (stood_in (Stage.Table n) plan host.old words.old pool.old)
        (stood_in (Stage.Table n) plan host.new words.new pool.new)
        (take result out.new) }
    ensures bounded { result ≤ 4096 }
{
    let said = parser::lines::finish(r, text);
    let k = n.min(pool.len());
    crate::table::answer(said, number, host, words, &mut pool[..k], out)
}
