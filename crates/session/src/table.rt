// A line of an open table is answered: the call, the lookup or what the host does, and the line that is printed.
ghost use Rattle.std.specs.Prelude.{◌≤◌, take};
ghost use Rattle.memory.specs.Words.{SameWords, lent_seen};
ghost use Rattle.session.specs.Lent.{held_in};
ghost use Rattle.session.specs.Table.{LooksAs, shorter, Answers};

use crate::Host;
use memory::words::{View, Words};
use model::Lookup;
use parser::forms::Said;

// A lookup is made, and its reply printed.
fn look(x: Lookup, host: &Host, words: &View, pool: &[u8], out: &mut [u8; 4096]) -> usize
    ensures { (result ≤ 4096) × LooksAs x host.now.counts
        (lent_seen host.now.rows words.now pool.now) (take result out.new) }
{
    let reply = submitter::lookup(x, host.counts, &host.rows, words, pool);
    printer::output::say_reply(reply, out)
}

// `len`: the free stack is lent without its last word.
fn len_line(host: &Host, words: &View, pool: &[u8], out: &mut [u8; 4096]) -> usize
    ensures { (result ≤ 4096) × LooksAs Lookup.WritesLive host.now.counts
        (shorter (lent_seen host.now.rows words.now pool.now)) (take result out.new) }
{
    let fewer = &words.free[..words.free.len().saturating_sub(1)];
    let shorter = View {
        free: fewer,
        ..*words
    };
    look(Lookup::WritesLive, host, &shorter, pool, out)
}

// A line of an open table is answered.
pub fn answer(
    said: Said,
    number: u64,
    host: &mut Host,
    words: &mut Words,
    pool: &mut [u8],
    out: &mut [u8; 4096],
) -> usize
    ensures same { SameWords words.old words.new }
    ensures answers { Answers said number (held_in host.old words.old pool.old)
        (held_in host.new words.new pool.new) (take result out.new) }
    ensures bounded { result ≤ 4096 }
{
    let seen = words.view();
    match said {
        Said::Look(x) => look(x, host, &seen, pool, out),
        Said::Len => len_line(host, &seen, pool, out),
        Said::Fill {
            buffer,
            at,
            length,
            seed,
        } => crate::hostlines::fill_line(
            buffer,
            at,
            length,
            seed,
            number,
            host.rows,
            seen.store,
            seen.owners,
            pool,
            out,
        ),
        Said::Sum { buffer, at, length } => {
            crate::hostlines::sum_line(buffer, at, length, number, seen.store, pool, out)
        }
        Said::Rows => {
            crate::hostlines::rows_line(host.counts, host.rows, seen.store, seen.free, out)
        }
        _ => {
            let names = crate::calls::named(seen.store);
            let asks = parser::requests::asked(said, names, host.flushes);
            crate::calls::ask(asks, number, host, words, pool, out)
        }
    }
}
