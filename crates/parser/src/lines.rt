// The calls of a trace, read: what each line says, of its bytes without the line's end, and what optrun takes of it.
// A line may be of any length: fields::reader keeps its first 4,096 bytes, and whether there are more.
ghost use Rattle.std.specs.Prelude.{◌≡◌, List, ℕ};
ghost use Rattle.fields.specs.Trace.{Kept};
ghost use Rattle.parser.specs.Said.{said_in, said_read, take_only, optrun_line};

use crate::forms::Said;
use fields::reader::{Front, Reader};
use model::Call;

// What a line says.
pub fn said_in(text: &[u8]) -> Said
    ensures { result ≡ said_in text.now }
{
    if fields::first_byte(text) == b'#' {
        return Said::Comment;
    }
    match fields::count_spaces(text) {
        0 => crate::forms::of_none(text),
        2 => crate::calls::of_two(text),
        3 => crate::calls::of_three(text),
        4 => crate::calls::of_four(text),
        5 => crate::calls::of_five(text),
        6 => crate::calls::of_six(text),
        9 => crate::calls::of_nine(text),
        _ => Said::Bad,
    }
}

// Of the calls only `t`.
#[tactic(auto, unfolding(crate::specs::Said::take_only))]
fn take_only(call: Call) -> Said
    ensures { result ≡ take_only call }
{
    match call {
        Call::Take => Said::Call(call),
        _ => Said::Bad,
    }
}

// What is taken of a line by optrun, which "reads `w`, `r`, `a` and `t` of these".
#[tactic(auto, unfolding(crate::specs::Said::optrun_line))]
pub fn optrun_line(said: Said) -> Said
    ensures { result ≡ optrun_line said }
{
    match said {
        Said::Comment => said,
        Said::Own { .. } => said,
        Said::Count { .. } => said,
        Said::Call(call) => take_only(call),
        _ => Said::Bad,
    }
}

// What the line says, once all its bytes are there.
pub fn finish(r: Reader, line: &[u8; 4096]) -> Said
    ensures { (bytes : List ℕ) → Kept r line.now bytes → result ≡ said_read bytes }
{
    match fields::reader::front_of(r, line) {
        Front::Comment => Said::Comment,
        Front::Bad => Said::Bad,
        Front::Text(kept) => said_in(&line[..kept]),
    }
}
