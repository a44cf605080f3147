// What replay prints of a refusal: `no`, document 01's number, and what the refusal tells besides, a region, a range or a cause.
ghost use Rattle.std.specs.Prelude.{◌≡◌, [], ◌∷◌, ◌++◌, ◌+◌, ◌≤◌, length};
ghost use Rattle.completion.specs.Numbers.{context_values};
ghost use Rattle.printer.specs.Parts.{fields_of, cause_text};
ghost use Rattle.completion.specs.Told.{told_values};
ghost use Rattle.printer.specs.Contexts.{region_word, cause_word, context_text};
ghost use Rattle.printer.specs.No.{no_text};
ghost use Rattle.printer.specs.Line.{said, SameLine};

use crate::bytes::Line;
use completion::refusals::Told;
use completion::{Context, Refusal};
use domain::FirstCause;

// Puts ` region ID`.
fn put_region(line: &mut Line, id: u64)
    requires { line.old.len + 70 ≤ length line.old.out.now }
    ensures same { SameLine line.old line.new }
    ensures text { said line.new ≡ said line.old ++ fields_of region_word (id ∷ []) }
    ensures room { line.new.len ≤ line.old.len + 70 }
{
    let numbers = [id];
    crate::parts::put_fields(line, b" region", &numbers)
}

// Puts a context, where there is one.
#[tactic(auto, unfolding(crate::specs::Contexts::context_text, completion::specs::Numbers::context_values, crate::specs::Parts::range_text))]
fn put_context(line: &mut Line, context: Context)
    requires { line.old.len + 70 ≤ length line.old.out.now }
    ensures same { SameLine line.old line.new }
    ensures text { said line.new ≡ said line.old ++ context_text (context_values context) }
    ensures room { line.new.len ≤ line.old.len + 70 }
{
    match context {
        Context::None => (),
        Context::Region(id) => put_region(line, id),
        Context::Range(range) => crate::parts::put_range(line, b" region", range),
    }
}

// Puts ` cause OP ERR`.
fn put_caused(line: &mut Line, cause: FirstCause)
    requires { line.old.len + 70 ≤ length line.old.out.now }
    ensures same { SameLine line.old line.new }
    ensures text { said line.new ≡ said line.old ++ (cause_word ++ cause_text cause) }
    ensures room { line.new.len ≤ line.old.len + 70 }
{
    line.put(b" cause");
    crate::causes::put_cause(line, cause)
}

// Puts what a refusal tells besides its number.
#[tactic(auto, unfolding(completion::specs::Told::told_values, crate::specs::Contexts::context_text))]
pub fn put_told(line: &mut Line, told: Told)
    requires { line.old.len + 70 ≤ length line.old.out.now }
    ensures same { SameLine line.old line.new }
    ensures text { said line.new ≡ said line.old ++ context_text (told_values told) }
    ensures room { line.new.len ≤ line.old.len + 70 }
{
    match told {
        Told::Context(context) => put_context(line, context),
        Told::Cause(cause) => put_caused(line, cause),
    }
}

// `no N` and the context
#[tactic(auto, unfolding(crate::specs::Texts::no_word, crate::specs::No::no_text))]
pub fn no_text(line: &mut Line, refusal: Refusal)
    requires { line.old.len + 1024 ≤ length line.old.out.now }
    ensures same { SameLine line.old line.new }
    ensures text { said line.new ≡ said line.old ++ no_text refusal }
    ensures room { line.new.len ≤ line.old.len + 1024 }
{
    let number = completion::refusals::number_of(refusal);
    let told = completion::refusals::told_of(refusal);
    line.put(b"no");
    line.put_spaced(number);
    put_told(line, told);
    line.put(b"\n")
}
