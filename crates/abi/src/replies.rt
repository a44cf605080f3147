// The reply to a call as 17 words (specs/ReplyWords.antt), for a host that takes no enums.
ghost use Rattle.std.specs.Prelude.{◌≡◌, [], ◌∷◌};
ghost use Rattle.completion.specs.Told.{told_values};
ghost use Rattle.abi.specs.ReplyWords.{filled, values_words, reply_words, unknown_words};

use completion::refusals::Told;
use completion::{Completion, Context, Held, Range, Refusal, Reply};
use domain::{FirstCause, Op, OsError};

// One word and those that follow it, with zeros behind.
fn five(a: u64, b: u64, c: u64, d: u64, e: u64) -> [u64; 17]
    ensures { result ≡ filled (a ∷ b ∷ c ∷ d ∷ e ∷ []) }
{
    [a, b, c, d, e, 0, 0, 0, 0, 0, 0, 0, 0, 0, 0, 0, 0]
}

// The words of a context.
fn context_words(c: Context) -> [u64; 4]
    ensures { result ≡ values_words (told_values (Told.Context c)) }
{
    match c {
        Context::None => [0, 0, 0, 0],
        Context::Region(id) => [1, id, 0, 0],
        Context::Range(r) => [2, r.region, r.start.0, r.end.0],
    }
}

// The words of a cause.
fn cause_words(f: FirstCause) -> [u64; 4]
    ensures { result ≡ values_words (told_values (Told.Cause f)) }
{
    [
        3,
        memory::causes::op_word(f.op),
        memory::causes::has_word(f.raw),
        memory::causes::raw_word(f.raw),
    ]
}

// What a refusal tells besides its number.
fn told_words(t: Told) -> [u64; 4]
    ensures { result ≡ values_words (told_values t) }
{
    match t {
        Told::Context(c) => context_words(c),
        Told::Cause(f) => cause_words(f),
    }
}

// A call that is turned away: document 01's number, and what it tells.
fn away_words(f: Refusal) -> [u64; 17]
    ensures { result ≡ reply_words (Reply.No f) }
{
    let n = completion::refusals::number_of(f);
    let t = told_words(completion::refusals::told_of(f));
    [
        2, n, t[0], t[1], t[2], t[3], 0, 0, 0, 0, 0, 0, 0, 0, 0, 0, 0,
    ]
}

// A first piece that is refused.
fn rejected_words(r: Range, op: Op, raw: Option<OsError>, buf: Option<Held>) -> [u64; 17]
    ensures { result ≡ reply_words (Reply.Rejected r op raw buf) }
{
    let o = memory::causes::op_word(op);
    let h = memory::causes::has_word(raw);
    let e = memory::causes::raw_word(raw);
    match buf {
        Some(Held { buffer, len }) => [
            3, r.region, r.start.0, r.end.0, o, h, e, 1, buffer, len, 0, 0, 0, 0, 0, 0, 0,
        ],
        None => [
            3, r.region, r.start.0, r.end.0, o, h, e, 0, 0, 0, 0, 0, 0, 0, 0, 0, 0,
        ],
    }
}

// A completion that is taken.
fn took_words(c: Completion) -> [u64; 17]
    ensures { result ≡ reply_words (Reply.Took c) }
{
    let w = ring::encode::words_of(c);
    [
        6, w[0], w[1], w[2], w[3], w[4], w[5], w[6], w[7], w[8], w[9], w[10], w[11], w[12], w[13],
        w[14], w[15],
    ]
}

// The words of a reply, put where the host lends room for them.
pub fn put_whole(r: Reply, out: &mut [u64; 17])
    ensures { out.new ≡ reply_words r }
{
    match r {
        Reply::Piece {
            qtag,
            offset,
            count,
            buffer,
        } => *out = five(1, qtag, offset.0, count, buffer),
        Reply::No(f) => *out = away_words(f),
        Reply::Rejected {
            range,
            op,
            raw,
            buf,
        } => *out = rejected_words(range, op, raw, buf),
        Reply::Done { qtag } => *out = five(4, qtag, 0, 0, 0),
        Reply::Flush { qtag, need } => *out = five(5, qtag, need, 0, 0),
        Reply::Took(c) => *out = took_words(c),
        Reply::None => *out = five(7, 0, 0, 0, 0),
        Reply::Ok => *out = five(8, 0, 0, 0, 0),
        Reply::Writes(on) => *out = five(9, memory::flag_word(on), 0, 0, 0),
        Reply::Mark(n) => *out = five(10, n, 0, 0, 0),
    }
}

// The same: a short reply is put at once, and what only a long one holds is not read.
pub fn put_reply(r: Reply, out: &mut [u64; 17])
    ensures { out.new ≡ reply_words r }
{
    match r {
        Reply::Piece {
            qtag,
            offset,
            count,
            buffer,
        } => *out = five(1, qtag, offset.0, count, buffer),
        Reply::Done { qtag } => *out = five(4, qtag, 0, 0, 0),
        Reply::Flush { qtag, need } => *out = five(5, qtag, need, 0, 0),
        _ => put_whole(r, out),
    }
}

// The words of a code that names nothing, likewise.
pub fn put_unknown(out: &mut [u64; 17])
    ensures { out.new ≡ unknown_words }
{
    *out = five(11, 0, 0, 0, 0);
}
