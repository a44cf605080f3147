// A line whose bytes have all arrived, of whatever length: fields::reader keeps its first 4,096 bytes, and whether there are more.
ghost use Rattle.std.specs.Prelude.{◌≡◌, List, ℕ, ◌≤◌, length, take};
ghost use Rattle.fields.specs.Trace.{Kept};
ghost use Rattle.parser.specs.Openings.{open_line_read, regions_after, plan_after};

use crate::preamble::OpenLine;
use fields::reader::{Front, Reader};

// What the line says, once all its bytes are there.
pub fn finish(r: Reader, line: &[u8; 4096]) -> OpenLine
    ensures { (bytes : List ℕ) → Kept r line.now bytes → result ≡ open_line_read bytes }
{
    match fields::reader::front_of(r, line) {
        Front::Comment => OpenLine::Comment,
        Front::Bad => OpenLine::Bad,
        Front::Text(kept) => crate::preamble::open_line(&line[..kept]),
    }
}

// Puts the region that the first bytes of a line tell into the plan.
fn front_region(line: &[u8], kept: usize, plan: &mut [u64; 560], count: u64) -> u64
    requires { kept ≤ length line.now }
    ensures { (result ≡ regions_after count) × (plan.new ≡ plan_after (take kept line.now) count plan.old) }
{
    crate::preamble::add_region(&line[..kept], plan, count)
}

// Puts the region that a line of at most 4,096 bytes tells into the plan, and tells how many regions there are then.
pub fn add_kept(r: Reader, line: &[u8; 4096], plan: &mut [u64; 560], count: u64) -> u64
    ensures { (bytes : List ℕ) → Kept r line.now bytes → length bytes ≤ 4096 → (result ≡ regions_after count) ×
        (plan.new ≡ plan_after bytes count plan.old) }
{
    if 4096 < r.kept {
        return count;
    }
    front_region(line, r.kept, plan, count)
}
