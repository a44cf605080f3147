// Operations, OS errors and causes, put at a line's end, and a refused first piece.
ghost use Rattle.std.specs.Prelude.{◌≡◌, ◌++◌, ◌+◌, ◌≤◌, length};
ghost use Rattle.printer.specs.Parts.{op_text, error_text, cause_text, poisoned_word, refused_text};
ghost use Rattle.printer.specs.Line.{said, SameLine};

use crate::bytes::Line;
use completion::Range;
use domain::{FirstCause, Op, OsError};

// Puts an operation.
#[tactic(auto, unfolding(crate::specs::Parts::op_text))]
pub fn put_op(line: &mut Line, op: Op)
    requires { line.old.len + 6 ≤ length line.old.out.now }
    ensures same { SameLine line.old line.new }
    ensures text { said line.new ≡ said line.old ++ op_text op }
    ensures room { line.new.len ≤ line.old.len + 6 }
{
    match op {
        Op::None => line.put(b" -"),
        Op::Read => line.put(b" read"),
        Op::Write => line.put(b" write"),
        Op::Flush => line.put(b" flush"),
    }
}

// Puts an OS error.
#[tactic(auto, unfolding(crate::specs::Parts::error_text))]
pub fn put_error(line: &mut Line, raw: Option<OsError>)
    requires { line.old.len + 21 ≤ length line.old.out.now }
    ensures same { SameLine line.old line.new }
    ensures text { said line.new ≡ said line.old ++ error_text raw }
    ensures room { line.new.len ≤ line.old.len + 21 }
{
    match raw {
        None => line.put(b" -"),
        Some(n) => line.put_spaced(n as u64),
    }
}

// Puts a cause.
#[tactic(auto, unfolding(crate::specs::Parts::cause_text))]
pub fn put_cause(line: &mut Line, cause: FirstCause)
    requires { line.old.len + 27 ≤ length line.old.out.now }
    ensures same { SameLine line.old line.new }
    ensures text { said line.new ≡ said line.old ++ cause_text cause }
    ensures room { line.new.len ≤ line.old.len + 27 }
{
    put_op(line, cause.op);
    put_error(line, cause.raw)
}

// Puts a first piece that was refused, with an OS error or without one.
#[tactic(auto, unfolding(crate::specs::Parts::refused_text))]
pub fn put_refused(line: &mut Line, range: Range, raw: Option<OsError>)
    requires { line.old.len + 96 ≤ length line.old.out.now }
    ensures same { SameLine line.old line.new }
    ensures text { said line.new ≡ said line.old ++ refused_text range raw }
    ensures room { line.new.len ≤ line.old.len + 95 }
{
    line.put(b"refused");
    match raw {
        None => crate::parts::put_range(line, b" full", range),
        Some(n) => crate::parts::put_raw(line, b" io", range, n),
    }
}

// Puts ` poisoned OP ERR`.
pub fn put_poisoned(line: &mut Line, cause: FirstCause)
    requires { line.old.len + 87 ≤ length line.old.out.now }
    ensures same { SameLine line.old line.new }
    ensures text { said line.new ≡ said line.old ++ (poisoned_word ++ cause_text cause) }
    ensures room { line.new.len ≤ line.old.len + 87 }
{
    line.put(b" poisoned");
    put_cause(line, cause)
}
