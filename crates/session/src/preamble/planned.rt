// Between `open` and `start`.
ghost use Rattle.std.specs.Prelude.{◌≡◌, List, ℕ, ◌≤◌, take};
ghost use Rattle.model.specs.declared.Counts.{Counts as counted};
ghost use Rattle.model.specs.Memory.{Lent};
ghost use Rattle.memory.specs.Words.{SameWords};
ghost use Rattle.fields.specs.Trace.{Kept};
ghost use Rattle.parser.specs.Openings.{open_line_read};
ghost use Rattle.session.specs.Unopened.{stood_at, Tells, with_regions, planned_line};
ghost use Rattle.session.specs.Lent.{stood_in};

use crate::preamble::start;
use crate::{Follows, Host, Stage};
use fields::reader::Reader;
use memory::words::Words;
use model::Opening;
use parser::preamble::OpenLine;

// An opening with as many regions.
fn with_regions(o: Opening, n: u64) -> Opening
    ensures { result ≡ with_regions n o }
{
    Opening { regions: n, ..o }
}

// A line that is no `start`.
fn opening_line(
    line: OpenLine,
    o: Opening,
    r: Reader,
    text: &[u8; 4096],
    number: u64,
    plan: &mut [u64; 560],
    out: &mut [u8; 4096],
) -> Follows
    ensures { (result.printed ≤ 4096) ×
        ((bytes : List ℕ) → Kept r text.now bytes → line ≡ open_line_read bytes → (line ≡ OpenLine.Start → ⊥) → (flushes : ℕ)
        (counts : counted) (lent : Lent) → Tells (planned_line line o bytes number (stood_at (Stage.Planned o) plan.old flushes counts lent))
        (stood_at result.stage plan.new flushes counts lent) (take result.printed out.new)) }
{
    match line {
        OpenLine::Comment => Follows {
            stage: Stage::Planned(o),
            printed: 0,
        },
        OpenLine::Region => {
            let n = parser::preamble::add_kept(r, text, plan, o.regions);
            Follows {
                stage: Stage::Planned(with_regions(o, n)),
                printed: 0,
            }
        }
        _ => Follows {
            stage: Stage::Planned(o),
            printed: printer::output::say_bad(number, out),
        },
    }
}

// A line between `open` and `start` is answered.
pub fn planned_line(
    o: Opening,
    r: Reader,
    text: &[u8; 4096],
    number: u64,
    plan: &mut [u64; 560],
    host: &mut Host,
    words: &mut Words,
    pool: &[u8],
    out: &mut [u8; 4096],
) -> Follows
    ensures same { SameWords words.old words.new }
    ensures by_index { (bytes : List ℕ) → Kept r text.now bytes → Tells
        (planned_line (open_line_read bytes) o bytes number
        (stood_in (Stage.Planned o) plan.old host.old words.old pool.now))
        (stood_in result.stage plan.new host.new words.new pool.now)
        (take result.printed out.new) }
    ensures bounded { result.printed ≤ 4096 }
{
    let line = parser::preamble::finish(r, text);
    match line {
        OpenLine::Start => start::start_line(o, plan, host, words, pool, out),
        _ => opening_line(line, o, r, text, number, plan, out),
    }
}
