// What a line of calls says, and the forms of a word alone, of an answer and of a submission.
ghost use Rattle.std.specs.Prelude.{◌≡◌, ◌&&◌};
ghost use Rattle.layout.specs.Pick.{pick};
ghost use Rattle.fields.specs.Fields.{spaces, are_numbers, is_flag};
ghost use Rattle.parser.specs.Said.{own_in, is_answered, answer_in, forms, says_of};

use model::{Call, Lookup};
use platform::Answer;

// What a line says.
#[derive(Clone, Copy)]
pub enum Said {
    // "A line that starts with `#` is passed over"
    Comment,
    Call(Call),
    // `w` and `r`: "handle 0, with its own volume, id and generation"
    Own {
        write: bool,
        buffer: u64,
        position: u64,
        length: u64,
        durable: bool,
        tag: u64,
    },
    // `a`: "a count; buffer back; the flush count last given, 0 at first"
    Count {
        qtag: u64,
        count: u64,
    },
    // "the lookups"
    Look(Lookup),
    // "a lookup with another length of row memory"
    Len,
    // "the host writes"
    Fill {
        buffer: u64,
        at: u64,
        length: u64,
        seed: u64,
    },
    // "the host looks at a buffer"
    Sum {
        buffer: u64,
        at: u64,
        length: u64,
    },
    // "generations and free stack"
    Rows,
    // A line of another form.
    Bad,
}

// What a line says where its fields are as they must be.
#[tactic(auto, unfolding(layout::specs::Pick::pick))]
pub fn checked(fit: bool, said: Said) -> Said
    ensures { result ≡ pick fit said Said.Bad }
{
    if fit { said } else { Said::Bad }
}

// A word alone: `t`, `writes`, `mark`, `len`, `rows`.
pub fn of_none(text: &[u8]) -> Said
    requires { spaces text.now ≡ 0 }
    ensures { result ≡ says_of (forms text.now) }
{
    if fields::words::is_word(text, 0, b"t") {
        return Said::Call(Call::Take);
    }
    if fields::words::is_word(text, 0, b"writes") {
        return Said::Look(Lookup::WritesLive);
    }
    if fields::words::is_word(text, 0, b"mark") {
        return Said::Look(Lookup::Mark);
    }
    if fields::words::is_word(text, 0, b"len") {
        return Said::Len;
    }
    if fields::words::is_word(text, 0, b"rows") {
        return Said::Rows;
    }
    Said::Bad
}

// `A QTAG FLUSHES BACK`, behind which an answer stands that fits or does not.
#[tactic(auto, unfolding(crate::specs::Said::is_answered, crate::specs::Said::answer_in))]
pub fn answered(text: &[u8], fit: bool, answer: Answer) -> Said
    ensures { result ≡ pick (fit && is_answered text.now) (answer_in answer text.now) Said.Bad }
{
    let qtag = fields::words::value_in(text, 1);
    let flushes = fields::words::value_in(text, 2);
    let back = crate::values::flag_in(text, 3);
    let front = fields::words::are_numbers(text, 3) && fields::words::is_flag(text, 3);
    checked(
        fit && front,
        Said::Call(Call::Answer {
            qtag,
            answer,
            back,
            flushes,
        }),
    )
}

// `w|r BUFFER POSITION LENGTH DURABLE TAG`
#[tactic(auto, unfolding(crate::specs::Said::own_in))]
pub fn owned(text: &[u8], write: bool) -> Said
    ensures { result ≡ pick (are_numbers 5 text.now && is_flag 4 text.now) (own_in write text.now) Said.Bad }
{
    let fit = fields::words::are_numbers(text, 5) && fields::words::is_flag(text, 4);
    let buffer = fields::words::value_in(text, 1);
    let position = fields::words::value_in(text, 2);
    let length = fields::words::value_in(text, 3);
    let durable = crate::values::flag_in(text, 4);
    let tag = fields::words::value_in(text, 5);
    checked(
        fit,
        Said::Own {
            write,
            buffer,
            position,
            length,
            durable,
            tag,
        },
    )
}
