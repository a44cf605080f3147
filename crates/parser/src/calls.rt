// The lines of two to nine fields behind the word: TRACE.md's table of calls, a function for each form and one for each count of fields. A line says
// what its form says only where every field is as that form asks; else it is bad.
ghost use Rattle.std.specs.Prelude.{◌≡◌, true, false, [], ◌∷◌};
ghost use Rattle.fields.specs.Fields.{spaces, word_in};
ghost use Rattle.fields.specs.Codes.{codes};
ghost use Rattle.parser.specs.Said.{gate_word, poison_word, forms, says_of, sum_word, fill_word};

use crate::forms::Said;
use model::Call;
use platform::{Answer, Flushed};

// `a QTAG COUNT`
#[tactic(auto, using(crate::proofs::Table::count_line))]
fn counted(text: &[u8]) -> Said
    requires { (spaces text.now ≡ 2) × (word_in 0 (codes "a") text.now ≡ true) }
    ensures { result ≡ says_of (forms text.now) }
{
    let fit = fields::words::are_numbers(text, 2);
    let qtag = fields::words::value_in(text, 1);
    let count = fields::words::value_in(text, 2);
    crate::forms::checked(fit, Said::Count { qtag, count })
}

// `gate HANDLE 0|1|2`
fn gated(text: &[u8]) -> Said
    requires { (spaces text.now ≡ 2) × (word_in 0 gate_word text.now ≡ true) }
    ensures { result ≡ says_of (forms text.now) }
{
    let fit = fields::words::are_numbers(text, 2) && fields::words::value_in(text, 2) <= 2;
    let handle = fields::words::value_in(text, 1);
    let gate = crate::values::gate_in(text, 2);
    crate::forms::checked(fit, Said::Call(Call::SetGate { handle, gate }))
}

// `ro HANDLE FLAG` and `force HANDLE FLAG`
fn marked(text: &[u8]) -> Said
    requires three_fields { spaces text.now ≡ 2 }
    requires other_words { (word_in 0 (codes "a") text.now ≡ false) × (word_in 0 gate_word text.now ≡ false) × (word_in 0 poison_word text.now ≡ false) }
    ensures { result ≡ says_of (forms text.now) }
{
    let fit = fields::words::are_numbers(text, 2) && fields::words::is_flag(text, 2);
    let handle = fields::words::value_in(text, 1);
    let on = crate::values::flag_in(text, 2);
    if fields::words::is_word(text, 0, b"ro") {
        return crate::forms::checked(fit, Said::Call(Call::SetReadOnly { handle, on }));
    }
    if fields::words::is_word(text, 0, b"force") {
        return crate::forms::checked(fit, Said::Call(Call::SetForced { handle, on }));
    }
    Said::Bad
}

// `poison OP ERR`
#[tactic(auto, using(crate::proofs::Table::poison_line))]
fn poisoned(text: &[u8]) -> Said
    requires { (spaces text.now ≡ 2) × (word_in 0 poison_word text.now ≡ true) }
    ensures { result ≡ says_of (forms text.now) }
{
    let fit = crate::values::is_cause(text, 1, 2);
    let cause = crate::values::cause_in(text, 1, 2);
    crate::forms::checked(fit, Said::Call(Call::ReportPoison(cause)))
}

// Two fields behind the word.
pub fn of_two(text: &[u8]) -> Said
    requires { spaces text.now ≡ 2 }
    ensures { result ≡ says_of (forms text.now) }
{
    if fields::words::is_word(text, 0, b"a") {
        return counted(text);
    }
    if fields::words::is_word(text, 0, b"gate") {
        return gated(text);
    }
    if fields::words::is_word(text, 0, b"poison") {
        return poisoned(text);
    }
    marked(text)
}

// `f QTAG n NEED`
fn flushed(text: &[u8]) -> Said
    requires { (spaces text.now ≡ 3) × (word_in 0 (codes "f") text.now ≡ true) }
    ensures { result ≡ says_of (forms text.now) }
{
    let qtag = fields::words::value_in(text, 1);
    let need = fields::words::value_in(text, 3);
    let fit = fields::words::is_word(text, 2, b"n")
        && fields::words::are_numbers(text, 1)
        && fields::words::is_number(text, 3);
    crate::forms::checked(
        fit,
        Said::Call(Call::Flushed {
            qtag,
            result: Flushed::Need(need),
        }),
    )
}

// `sum BUFFER AT LENGTH`
#[tactic(auto, using(crate::proofs::Table::sum_line))]
fn summed(text: &[u8]) -> Said
    requires { (spaces text.now ≡ 3) × (word_in 0 sum_word text.now ≡ true) }
    ensures { result ≡ says_of (forms text.now) }
{
    let fit = fields::words::are_numbers(text, 3);
    let buffer = fields::words::value_in(text, 1);
    let at = fields::words::value_in(text, 2);
    let length = fields::words::value_in(text, 3);
    crate::forms::checked(fit, Said::Sum { buffer, at, length })
}

// Three fields behind the word.
pub fn of_three(text: &[u8]) -> Said
    requires { spaces text.now ≡ 3 }
    ensures { result ≡ says_of (forms text.now) }
{
    if fields::words::is_word(text, 0, b"f") {
        return flushed(text);
    }
    if fields::words::is_word(text, 0, b"sum") {
        return summed(text);
    }
    Said::Bad
}

// `f QTAG u OP ERR` and `f QTAG p OP ERR`
fn failed(text: &[u8]) -> Said
    requires { (spaces text.now ≡ 4) × (word_in 0 (codes "f") text.now ≡ true) }
    ensures { result ≡ says_of (forms text.now) }
{
    let qtag = fields::words::value_in(text, 1);
    let cause = crate::values::cause_in(text, 3, 4);
    let fit = fields::words::are_numbers(text, 1) && crate::values::is_cause(text, 3, 4);
    if fields::words::is_word(text, 2, b"u") {
        let result = Flushed::Unknown(cause);
        return crate::forms::checked(fit, Said::Call(Call::Flushed { qtag, result }));
    }
    if fields::words::is_word(text, 2, b"p") {
        let result = Flushed::Poisoned(cause);
        return crate::forms::checked(fit, Said::Call(Call::Flushed { qtag, result }));
    }
    Said::Bad
}

// `fill BUFFER AT LENGTH SEED`
#[tactic(auto, using(crate::proofs::Table::fill_line))]
fn filled(text: &[u8]) -> Said
    requires { (spaces text.now ≡ 4) × (word_in 0 fill_word text.now ≡ true) }
    ensures { result ≡ says_of (forms text.now) }
{
    let fit = fields::words::are_numbers(text, 4);
    let buffer = fields::words::value_in(text, 1);
    let at = fields::words::value_in(text, 2);
    let length = fields::words::value_in(text, 3);
    let seed = fields::words::value_in(text, 4);
    crate::forms::checked(
        fit,
        Said::Fill {
            buffer,
            at,
            length,
            seed,
        },
    )
}

// Four fields behind the word; `A QTAG FLUSHES BACK q` among them.
pub fn of_four(text: &[u8]) -> Said
    requires { spaces text.now ≡ 4 }
    ensures { result ≡ says_of (forms text.now) }
{
    if fields::words::is_word(text, 0, b"A") {
        return crate::forms::answered(text, fields::words::is_word(text, 4, b"q"), Answer::Refused);
    }
    if fields::words::is_word(text, 0, b"f") {
        return failed(text);
    }
    if fields::words::is_word(text, 0, b"fill") {
        return filled(text);
    }
    Said::Bad
}

// Five fields behind the word; `A QTAG FLUSHES BACK c COUNT` among them.
pub fn of_five(text: &[u8]) -> Said
    requires { spaces text.now ≡ 5 }
    ensures { result ≡ says_of (forms text.now) }
{
    if fields::words::is_word(text, 0, b"w") {
        return crate::forms::owned(text, true);
    }
    if fields::words::is_word(text, 0, b"r") {
        return crate::forms::owned(text, false);
    }
    if fields::words::is_word(text, 0, b"A") {
        let fit = fields::words::is_word(text, 4, b"c") && fields::words::is_number(text, 5);
        return crate::forms::answered(text, fit, Answer::Count(fields::words::value_in(text, 5)));
    }
    Said::Bad
}

// `A QTAG FLUSHES BACK e ERR MEDIA` and `A QTAG FLUSHES BACK x ERR MEDIA`
pub fn of_six(text: &[u8]) -> Said
    requires { spaces text.now ≡ 6 }
    ensures { result ≡ says_of (forms text.now) }
{
    if !fields::words::is_word(text, 0, b"A") {
        return Said::Bad;
    }
    let raw = crate::values::raw_in(text, 5);
    let media = crate::values::flag_in(text, 6);
    let fit = crate::values::is_raw(text, 5) && fields::words::is_flag(text, 6);
    if fields::words::is_word(text, 4, b"e") {
        return crate::forms::answered(text, fit, Answer::Error { raw, media });
    }
    if fields::words::is_word(text, 4, b"x") {
        return crate::forms::answered(text, fit, Answer::RefusedWith { raw, media });
    }
    Said::Bad
}

// `W|R HANDLE VOLUME REGION GENERATION POSITION BUFFER LENGTH DURABLE TAG`
pub fn of_nine(text: &[u8]) -> Said
    requires { spaces text.now ≡ 9 }
    ensures { result ≡ says_of (forms text.now) }
{
    let fit = fields::words::are_numbers(text, 9) && fields::words::is_flag(text, 8);
    let request = crate::values::request_in(text);
    if fields::words::is_word(text, 0, b"W") {
        return crate::forms::checked(fit, Said::Call(Call::Write(request)));
    }
    if fields::words::is_word(text, 0, b"R") {
        return crate::forms::checked(fit, Said::Call(Call::ReadPage(request)));
    }
    Said::Bad
}
