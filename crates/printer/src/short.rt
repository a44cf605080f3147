// What optrun prints of a reply: document 01's fields and no more, so no buffer, no ticket and no receipt.
ghost use Rattle.std.specs.Prelude.{◌≡◌, [], ◌∷◌, ◌++◌, ◌+◌, ◌≤◌, length, take};
ghost use Rattle.printer.specs.Parts.{refused_text};
ghost use Rattle.printer.specs.ShortTook.{short_took};
ghost use Rattle.printer.specs.Short.{short_text};
ghost use Rattle.printer.specs.Line.{said, SameLine};

use crate::bytes::Line;
use completion::{Completion, Range, Reply};
use domain::OsError;

// `took TAG` and what the operation came to
#[tactic(auto, unfolding(crate::specs::Parts::bit, layout::specs::Pick::pick, crate::specs::ShortTook::short_took))]
pub fn took_text(line: &mut Line, c: Completion)
    requires { line.old.len + 128 ≤ length line.old.out.now }
    ensures same { SameLine line.old line.new }
    ensures text { said line.new ≡ said line.old ++ short_took c }
    ensures room { line.new.len ≤ line.old.len + 128 }
{
    line.put(b"took");
    line.put_spaced(c.tag);
    crate::outcomes::put_outcome(line, false, c.outcome);
    line.put(b"\n")
}

// A first piece refused.
pub fn refused_text(line: &mut Line, range: Range, raw: Option<OsError>)
    requires { line.old.len + 128 ≤ length line.old.out.now }
    ensures same { SameLine line.old line.new }
    ensures text { said line.new ≡ said line.old ++ (refused_text range raw ++ (10 ∷ [])) }
    ensures room { line.new.len ≤ line.old.len + 128 }
{
    crate::causes::put_refused(line, range, raw);
    line.put(b"\n")
}

// What optrun prints of a reply. The longest line is that of an operation that ended in an OS error: `took TAG io REGION START END ERR`, at most 113
// bytes.
#[tactic(auto, unfolding(crate::specs::Short::short_text))]
pub fn short_text(reply: Reply, out: &mut [u8; 128]) -> usize
    ensures { (result ≤ 128) × (take result out.new ≡ short_text reply) }
{
    let mut line = Line { out, len: 0 };
    match reply {
        Reply::Piece {
            qtag,
            offset,
            count,
            ..
        } => crate::lines::piece_text(&mut line, qtag, offset.0, count),
        Reply::No(refusal) => crate::lines::no_text(&mut line, refusal),
        Reply::Rejected { range, raw, .. } => refused_text(&mut line, range, raw),
        Reply::Done { qtag } => crate::lines::numbered_text(&mut line, b"done", qtag),
        Reply::Flush { qtag, need } => crate::parts::flush_text(&mut line, qtag, need),
        Reply::Took(c) => took_text(&mut line, c),
        Reply::None => crate::parts::word_text(&mut line, b"none\n"),
        Reply::Ok => crate::parts::word_text(&mut line, b"ok\n"),
        Reply::Writes(w) => crate::lines::numbered_text(
            &mut line,
            b"writes",
            crate::parts::bit_of(w),
        ),
        Reply::Mark(m) => crate::lines::numbered_text(&mut line, b"mark", m),
    }
    line.len
}
