// What replay prints of the rows.
ghost use Rattle.std.specs.Prelude.{◌≡◌, ◌++◌, ◌+◌, ◌*◌, ◌≤◌, length};
ghost use Rattle.printer.specs.Rows.{rows_text};
ghost use Rattle.printer.specs.Line.{said, SameLine};

use crate::bytes::Line;

// `rows GENERATION... free ROW...`, of rows and a free stack with its top first.
#[tactic(auto, unfolding(crate::specs::Rows::rows_text))]
pub fn rows_text(line: &mut Line, generations: &[u64], free: &[u64])
    requires { line.old.len + 10 + 21 * (length generations.now + length free.now) ≤ length line.old.out.now }
    ensures same { SameLine line.old line.new }
    ensures text { said line.new ≡ said line.old ++ rows_text generations.now free.now }
    ensures room { line.new.len ≤ line.old.len + 10 + 21 * (length generations.now + length free.now) }
{
    crate::parts::put_fields(line, b"rows", generations);
    crate::parts::put_fields(line, b" free", free);
    line.put(b"\n")
}
