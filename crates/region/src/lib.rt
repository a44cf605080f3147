// What a request is asked of its region (store-io's region.rs, PageRegion::check, and the tests of Submitter::read_page and read).
//
// ready    contexts, and whether the store and the region may be written
// receipt  the receipt of a durable write
#![tactic(auto)]

pub mod ready;
pub mod receipt;

ghost use Rattle.std.specs.Prelude.{◌≡◌, ◌&&◌, [], ◌∷◌, ◌+◌, ◌^◌, leb, ltb};
ghost use Rattle.step.specs.Questions.{first_no, volume_and_region_match, generation_matches, length_above0, aligned, within_data};

use crate::ready::ask;
use completion::{Context, Refusal};
use model::Request;
use regionmap::Position;

// Questions 10 and 11: do volume and region match, does the generation?
pub fn names(volume: u64, id: u64, generation: u64, c: Context, q: Request) -> Result<(), Refusal>
    ensures { result ≡ first_no (volume_and_region_match volume id c q ∷ generation_matches generation c q ∷ []) }
{
    ask(
        q.volume == volume && q.region == id,
        Refusal::ForeignPosition(c),
    )?;
    ask(q.generation == generation, Refusal::StaleGeneration(c))
}

// Question 13, of a write and of a read: are offset and length multiples of the block? The Rust's `check`, of a write, does not test the offset
// (docs/DIFFERENCES.md).
fn alignment(block: u64, c: Context, q: Request) -> Result<(), Refusal>
    ensures { result ≡ aligned block c q }
{
    let on_block = layout::on_block(block, q.offset.0) && layout::on_block(block, q.length);
    ask(on_block, Refusal::Misaligned(c))
}

// The range ends within the data; no sum is made, so none wraps (checked_add).
fn within(start: Position, length: u64, data: u64) -> bool
    ensures { result ≡ (ltb (start.0 + length) (2 ^ 64) && leb (start.0 + length) «data») }
{
    start.0 <= data && length <= data - start.0
}

// Questions 12 to 14: is the length above 0, are offset and length multiples of the block, is the range within the data?
pub fn check(data: u64, block: u64, c: Context, q: Request) -> Result<(), Refusal>
    ensures { result ≡ first_no (length_above0 c q ∷ aligned block c q ∷ within_data «data» c q ∷ []) }
{
    ask(0 < q.length, Refusal::Empty(c))?;
    alignment(block, c, q)?;
    ask(within(q.offset, q.length, data), Refusal::OutOfBounds(c))
}
