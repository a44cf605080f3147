// `start`
ghost use Rattle.std.specs.Prelude.{◌≡◌, ◌≤◌, take};
ghost use Rattle.model.specs.declared.Opening.{Opening as opening};
ghost use Rattle.memory.specs.Words.{SameWords, lent_words};
ghost use Rattle.session.specs.Start.{started_as};
ghost use Rattle.session.specs.Unopened.{Stood, Tells, limit_text, no_text13, start_line};
ghost use Rattle.session.specs.Lent.{stood_in};

use crate::start::Started;
use crate::{Follows, Host, Stage};
use completion::{Refusal, Reply};
use memory::words::Words;
use model::{Counts, Opening};

// `no 13`
pub fn say_no(out: &mut [u8; 4096]) -> usize
    ensures { (result ≤ 4096) × (take result out.new ≡ no_text13) }
{
    printer::output::say_reply(Reply::No(Refusal::Unfit), out)
}

// `limit`
fn say_limit(out: &mut [u8; 4096]) -> usize
    ensures { (result ≤ 4096) × (take result out.new ≡ limit_text) }
{
    printer::bytes::put(b"limit\n", out, 0)
}

// The stage that follows `start`, and what is printed, by what became of the opening.
fn started_line(started: Started, o: Opening, pool: &[u8], out: &mut [u8; 4096]) -> Follows
    ensures { (result.printed ≤ 4096) ×
        ((s : Stood) → s.lent.pool ≡ pool.now → (result.stage ≡ (start_line started o s).stood.stage) ×
        (take result.printed out.new ≡ (start_line started o s).text)) }
{
    match started {
        Started::Table => Follows {
            stage: Stage::Table(crate::start::bytes_for(o, pool)),
            printed: printer::output::say_reply(Reply::Ok, out),
        },
        Started::Refused => Follows {
            stage: Stage::Refused,
            printed: say_no(out),
        },
        Started::TooLarge => Follows {
            stage: Stage::Over,
            printed: say_limit(out),
        },
    }
}

// The counts of a table that was opened are none.
fn counts_after(started: Started, counts: Counts) -> Counts
    ensures { (o : opening) (s : Stood) → s.counts ≡ counts → result ≡ (start_line started o s).stood.counts }
{
    match started {
        Started::Table => opening::fresh(),
        _ => counts,
    }
}

// `start` is answered.
pub(crate) fn start_line(
    o: Opening,
    plan: &[u64; 560],
    host: &mut Host,
    words: &mut Words,
    pool: &[u8],
    out: &mut [u8; 4096],
) -> Follows
    ensures same { SameWords words.old words.new }
    ensures tells { Tells
        (start_line (started_as o plan.now (lent_words host.old.rows words.old pool.now)) o
        (stood_in (Stage.Planned o) plan.now host.old words.old pool.now))
        (stood_in result.stage plan.now host.new words.new pool.now)
        (take result.printed out.new) }
    ensures bounded { result.printed ≤ 4096 }
{
    let started = crate::start::start(o, plan, &mut host.rows, words, pool);
    host.counts = counts_after(started, host.counts);
    started_line(started, o, pool, out)
}
