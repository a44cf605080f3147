// What replay prints of a reply. The lines that optrun prints too stand in lines and parts; those
// of a piece, of a refused first piece and of a taking have more fields here.
ghost use Rattle.std.specs.Prelude.{◌≡◌, [], ◌∷◌, ◌++◌, ◌+◌, ◌≤◌, length, take};
ghost use Rattle.printer.specs.Texts.{piece_word};
ghost use Rattle.printer.specs.Parts.{fields_of, refused_text};
ghost use Rattle.printer.specs.Tickets.{buffer_text};
ghost use Rattle.printer.specs.Lines.{took_text};
ghost use Rattle.printer.specs.Replay.{replay_text};
ghost use Rattle.printer.specs.Line.{said, SameLine};

use crate::bytes::Line;
use completion::{Completion, Held, Range, Reply};
use domain::OsError;

// `piece QTAG OFFSET COUNT BUFFER`
#[tactic(auto, unfolding(crate::specs::Texts::piece_word))]
pub fn piece_text(line: &mut Line, qtag: u64, offset: u64, count: u64, buffer: u64)
    requires { line.old.len + 1024 ≤ length line.old.out.now }
    ensures same { SameLine line.old line.new }
    ensures text { said line.new ≡ said line.old ++ (fields_of piece_word (qtag ∷ offset ∷ count ∷ buffer ∷ []) ++ (10 ∷ [])) }
    ensures room { line.new.len ≤ line.old.len + 1024 }
{
    let numbers = [qtag, offset, count, buffer];
    crate::parts::put_fields(line, b"piece", &numbers);
    line.put(b"\n")
}

// A first piece refused, and its buffer.
pub fn refused_text(line: &mut Line, range: Range, raw: Option<OsError>, buf: Option<Held>)
    requires { line.old.len + 1024 ≤ length line.old.out.now }
    ensures same { SameLine line.old line.new }
    ensures text { said line.new ≡ said line.old ++ (refused_text range raw ++ buffer_text buf ++ (10 ∷ [])) }
    ensures room { line.new.len ≤ line.old.len + 1024 }
{
    crate::causes::put_refused(line, range, raw);
    crate::tickets::put_buffer(line, buf);
    line.put(b"\n")
}

// `took TAG OUTCOME` and the buffer
#[tactic(auto, unfolding(crate::specs::Parts::bit, layout::specs::Pick::pick, crate::specs::Lines::took_text))]
pub fn took_text(line: &mut Line, c: Completion)
    requires { line.old.len + 1024 ≤ length line.old.out.now }
    ensures same { SameLine line.old line.new }
    ensures text { said line.new ≡ said line.old ++ took_text c }
    ensures room { line.new.len ≤ line.old.len + 1024 }
{
    line.put(b"took");
    line.put_spaced(c.tag);
    crate::outcomes::put_outcome(line, true, c.outcome);
    crate::tickets::put_buffer(line, c.buf);
    line.put(b"\n")
}

// Puts what replay prints of a reply.
#[tactic(auto, unfolding(crate::specs::Replay::replay_text))]
pub(crate) fn put_reply(line: &mut Line, reply: Reply)
    requires { line.old.len + 1024 ≤ length line.old.out.now }
    ensures same { SameLine line.old line.new }
    ensures text { said line.new ≡ said line.old ++ replay_text reply }
    ensures room { line.new.len ≤ line.old.len + 1024 }
{
    match reply {
        Reply::Piece {
            qtag,
            offset,
            count,
            buffer,
        } => piece_text(line, qtag, offset.0, count, buffer),
        Reply::No(refusal) => crate::refusals::no_text(line, refusal),
        Reply::Rejected {
            range,
            raw,
            buf,
            ..
        } => refused_text(line, range, raw, buf),
        Reply::Done { qtag } => crate::lines::numbered_text(line, b"done", qtag),
        Reply::Flush { qtag, need } => crate::parts::flush_text(line, qtag, need),
        Reply::Took(c) => took_text(line, c),
        Reply::None => crate::parts::word_text(line, b"none\n"),
        Reply::Ok => crate::parts::word_text(line, b"ok\n"),
        Reply::Writes(w) => crate::lines::numbered_text(line, b"writes", crate::parts::bit_of(w)),
        Reply::Mark(m) => crate::lines::numbered_text(line, b"mark", m),
    }
}

// What replay prints of a reply. The longest line is that of a receipt: words of 34 bytes, 25 numbers of at most 20 digits, each behind a space, and
// the line's end, so at most 560 bytes.
pub fn reply_text(reply: Reply, out: &mut [u8; 1024]) -> usize
    ensures { (result ≤ 1024) × (take result out.new ≡ replay_text reply) }
{
    let mut line = Line { out, len: 0 };
    put_reply(&mut line, reply);
    line.len
}
