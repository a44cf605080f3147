// A line of an opening is read by its first word.
ghost use Rattle.std.specs.Prelude.{◌≡◌};
ghost use Rattle.parser.specs.Openings.{is_open, opening_of, is_region, is_start, open_line_in};

use crate::preamble::OpenLine;
use model::Opening;

// Whether a line is `open` with twelve numbers, of which two are flags.
#[tactic(auto, unfolding(crate::specs::Openings::is_open))]
fn is_open(text: &[u8]) -> bool
    ensures { result ≡ is_open text.now }
{
    fields::count_spaces(text) == 12
        && fields::words::is_word(text, 0, b"open")
        && fields::words::are_numbers(text, 12)
        && fields::words::is_flag(text, 7)
        && fields::words::is_flag(text, 8)
}

// Its numbers.
#[tactic(auto, unfolding(crate::specs::Openings::opening_of))]
fn opening_of(text: &[u8]) -> Opening
    ensures { result ≡ opening_of text.now }
{
    Opening {
        depth: fields::words::value_in(text, 1),
        block: fields::words::value_in(text, 2),
        buffers: fields::words::value_in(text, 3),
        capacity: fields::words::value_in(text, 4),
        lifetime: fields::words::value_in(text, 5),
        card: fields::words::value_in(text, 6),
        read_only: fields::words::value_in(text, 7) == 1,
        flush: fields::words::value_in(text, 8) == 1,
        volume: fields::words::value_in(text, 9),
        class: fields::words::value_in(text, 10),
        label: fields::words::value_in(text, 11),
        epoch: fields::words::value_in(text, 12),
        regions: 0,
    }
}

// Whether a line is `region` with five numbers and a pair for each further run.
#[tactic(auto, unfolding(crate::specs::Openings::is_region))]
fn is_region(text: &[u8]) -> bool
    ensures { result ≡ is_region text.now }
{
    let count = fields::count_spaces(text);
    count >= 5
        && (count - 5) % 2 == 0
        && fields::words::is_word(text, 0, b"region")
        && fields::words::are_numbers(text, count)
}

// Whether a line is `start`.
#[tactic(auto, unfolding(crate::specs::Openings::is_start))]
fn is_start(text: &[u8]) -> bool
    ensures { result ≡ is_start text.now }
{
    fields::count_spaces(text) == 0 && fields::words::is_word(text, 0, b"start")
}

// What a line of an opening says.
#[tactic(auto, unfolding(crate::specs::Openings::open_line_in, layout::specs::Pick::pick))]
pub fn open_line(text: &[u8]) -> OpenLine
    ensures { result ≡ open_line_in text.now }
{
    if fields::first_byte(text) == b'#' {
        return OpenLine::Comment;
    }
    if is_open(text) {
        return OpenLine::Open(opening_of(text));
    }
    if is_region(text) {
        return OpenLine::Region;
    }
    if is_start(text) {
        return OpenLine::Start;
    }
    OpenLine::Bad
}
