// What is printed of a line, from the front of a buffer that holds any of it.
ghost use Rattle.std.specs.Prelude.{◌≡◌, map, ◌≤◌, take};
ghost use Rattle.printer.specs.Texts.{bad_text};
ghost use Rattle.printer.specs.Rows.{sum_text};
ghost use Rattle.printer.specs.Replay.{replay_text};
ghost use Rattle.printer.specs.Listed.{generation_of, listed_text};

use crate::bytes::Line;
use completion::Reply;
use model::Row;

// A reply.
pub fn say_reply(reply: Reply, out: &mut [u8; 4096]) -> usize
    ensures { (result ≤ 4096) × (take result out.new ≡ replay_text reply) }
{
    let mut line = Line { out, len: 0 };
    crate::replies::put_reply(&mut line, reply);
    line.len
}

// `bad` and the line's number.
#[tactic(auto, unfolding(crate::specs::Texts::bad_word, crate::specs::Texts::bad_text))]
pub fn say_bad(number: u64, out: &mut [u8; 4096]) -> usize
    ensures { (result ≤ 4096) × (take result out.new ≡ bad_text number) }
{
    let mut line = Line { out, len: 0 };
    crate::lines::numbered_text(&mut line, b"bad", number);
    line.len
}

// `sum S`
#[tactic(auto, unfolding(crate::specs::Rows::sum_text))]
pub fn say_sum(sum: u64, out: &mut [u8; 4096]) -> usize
    ensures { (result ≤ 4096) × (take result out.new ≡ sum_text sum) }
{
    let mut line = Line { out, len: 0 };
    crate::lines::numbered_text(&mut line, b"sum", sum);
    line.len
}

// The generations of the rows.
fn generations(rows: [Row; 64]) -> [u64; 64]
    ensures { result ≡ map generation_of rows }
{
    rows.map(|row| u64::from(row.generation))
}

// `rows GENERATION... free ROW...`, of a table of at most 64 rows.
pub fn say_rows(
    depth: usize,
    live: usize,
    rows: [Row; 64],
    free: &[u64],
    out: &mut [u8; 4096],
) -> usize
    ensures { (result ≤ 4096) × (depth ≤ 64 → take result out.new ≡ listed_text depth live rows free.now) }
{
    let all = generations(rows);
    let most = depth.min(64);
    let end = most.min(free.len());
    let top = live.min(end);
    let mut line = Line { out, len: 0 };
    crate::rows::rows_text(&mut line, &all[..most], &free[top..end]);
    line.len
}
