// What is printed of an outcome, put at a line's end: by replay the whole of it, by optrun document 01's fields and no more.
ghost use Rattle.std.specs.Prelude.{◌≡◌, ◌++◌, ◌+◌, ◌*◌, ◌≤◌, length};
ghost use Rattle.printer.specs.Parts.{bit};
ghost use Rattle.printer.specs.Outcomes.{outcome_text};
ghost use Rattle.printer.specs.Line.{said, SameLine};

use crate::bytes::Line;
use completion::Outcome;

// Puts what an operation came to: at most 87 bytes, or 485 for the whole of it.
#[tactic(auto, unfolding(crate::specs::Outcomes::outcome_text))]
pub fn put_outcome(line: &mut Line, whole: bool, outcome: Outcome)
    requires { line.old.len + 87 + 398 * bit whole ≤ length line.old.out.now }
    ensures same { SameLine line.old line.new }
    ensures text { said line.new ≡ said line.old ++ outcome_text whole outcome }
    ensures room { line.new.len ≤ line.old.len + 87 + 398 * bit whole }
{
    match outcome {
        Outcome::Written(t) => crate::tickets::put_ticketed(line, whole, b" written", t, t.need),
        Outcome::Receipt(t, d) => crate::tickets::put_durable(line, whole, t, d),
        Outcome::Read { len } => crate::parts::put_read(line, len),
        Outcome::Unknown(range, cause) => crate::tickets::put_unknown(line, whole, range, cause),
        Outcome::Interrupted(range) => crate::parts::put_range(line, b" interrupted", range),
        Outcome::Corruption(range) => crate::parts::put_range(line, b" media", range),
        Outcome::Io { range, raw, .. } => crate::parts::put_raw(line, b" io", range, raw),
        Outcome::QueueFull(range) => crate::parts::put_range(line, b" full", range),
        Outcome::Poisoned(cause) => crate::causes::put_poisoned(line, cause),
    }
}
