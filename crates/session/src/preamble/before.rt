// Before `open`.
ghost use Rattle.std.specs.Prelude.{List, ℕ, ◌≤◌, take};
ghost use Rattle.fields.specs.Trace.{Kept};
ghost use Rattle.parser.specs.Openings.{open_line_read};
ghost use Rattle.session.specs.Unopened.{Stood, at_stage, Tells, before_line};

use crate::{Follows, Stage};
use fields::reader::Reader;
use parser::preamble::OpenLine;

// A line before `open` is answered.
pub fn before_line(r: Reader, text: &[u8; 4096], number: u64, out: &mut [u8; 4096]) -> Follows
    ensures { (result.printed ≤ 4096) ×
        ((bytes : List ℕ) → Kept r text.now bytes → (s : Stood) → Tells (before_line (open_line_read bytes) number s) (at_stage result.stage s)
        (take result.printed out.new)) }
{
    let line = parser::preamble::finish(r, text);
    match line {
        OpenLine::Comment => Follows {
            stage: Stage::Before,
            printed: 0,
        },
        OpenLine::Open(o) => Follows {
            stage: Stage::Planned(o),
            printed: 0,
        },
        _ => Follows {
            stage: Stage::Before,
            printed: printer::output::say_bad(number, out),
        },
    }
}
