// Contexts and readiness (store-io's io.rs): what a refusal carries, and whether the store and one of its regions may be written.
ghost use Rattle.std.specs.Prelude.{◌≡◌, [], ◌∷◌, ◌+◌, ◌-◌, ◌^◌, min};
ghost use Rattle.regionmap.specs.Words.{position_of};
ghost use Rattle.step.specs.Questions.{range_from, ask as asks, first_no, store_writable, unpoisoned, region_writable};

use completion::{Context, Range, Refusal};
use domain::FirstCause;
use regionmap::Position;

// "Context is the region's id." (ctx)
pub fn ctx(id: u64) -> Context
    ensures { result ≡ Context.Region id }
{
    Context::Region(id)
}

// The end of a range, "capped at 2^64 − 1" (u64::saturating_add).
fn capped_end(start: Position, length: u64) -> Position
    ensures { result ≡ position_of (min (start.0 + length) (2 ^ 64 - 1)) }
{
    Position(start.0.saturating_add(length))
}

// "Questions 12 to 14 of a read add the range" (ctx_range).
pub fn ctx_range(id: u64, start: Position, length: u64) -> Context
    ensures { result ≡ range_from id start length }
{
    Context::Range(Range {
        region: id,
        start,
        end: capped_end(start, length),
    })
}

// One question: yes, or the refusal.
pub fn ask(test: bool, refusal: Refusal) -> Result<(), Refusal>
    ensures { result ≡ asks test refusal }
{
    if test { Ok(()) } else { Err(refusal) }
}

// Questions 7 to 9: may the store be written, is it unpoisoned, may the region be written (Store::ready, ready_for)?
pub fn ready_for(
    read_only: bool,
    poison: Option<FirstCause>,
    region_read_only: bool,
    c: Context,
) -> Result<(), Refusal>
    ensures { result ≡ first_no (store_writable read_only ∷ unpoisoned poison ∷ region_writable region_read_only c ∷ []) }
{
    ask(!read_only, Refusal::ReadOnly(Context::None))?;
    if let Some(first) = poison {
        return Err(Refusal::Poisoned(first));
    }
    ask(!region_read_only, Refusal::ReadOnly(c))
}
