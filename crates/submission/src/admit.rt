// Questions 2 to 6 of a submission (store-io's submitter/mod.rs: admit), on values.
ghost use Rattle.std.specs.Prelude.{◌≡◌, ◌&&◌, [], ◌∷◌, map, take, nat_le, nat_lt, slice_index_or};
ghost use Rattle.model.specs.State.{Owner.lost};
ghost use Rattle.model.specs.Memory.{owner_in};
ghost use Rattle.step.specs.Questions.{is_host, ask as asks, first_no, host_holds_buffer, room_in_table, lifetime_left, gate_open};

use completion::{Context, Refusal};
use model::{Counts, Gate, Request};
use region::ready::ask;

// Question 2: is the buffer in the pool, its length within capacity (BufPool::owns)?
pub fn in_pool(buffers: u64, capacity: u64, q: Request) -> bool
    ensures { result ≡ (nat_lt q.buffer buffers && nat_le q.length capacity) }
{
    q.buffer < buffers && q.length <= capacity
}

// Question 3: does the host hold the buffer?
pub fn held(owners: &[u64], buffers: u64, buffer: u64) -> bool
    ensures { result ≡ is_host (slice_index_or (map owner_in (take buffers owners.now)) buffer lost) }
{
    let at = buffer as usize;
    buffer < buffers && at < owners.len() && owners[at] == 0
}

// Question 6: is the region's gate open (OwnedPass::enter, retired_error)?
fn enter(gate: Gate, c: Context) -> Result<(), Refusal>
    ensures { result ≡ gate_open gate c }
{
    match gate {
        Gate::Open => Ok(()),
        Gate::Recycled => Err(Refusal::StaleGeneration(c)),
        Gate::Released => Err(Refusal::NotReady(c)),
    }
}

// Questions 2 to 6 (Submitter::admit).
pub fn admit(
    counts: Counts,
    depth: u64,
    lifetime: u64,
    pooled: bool,
    held: bool,
    gate: Gate,
    c: Context,
) -> Result<(), Refusal>
    ensures { result ≡ first_no (asks pooled (Refusal.ForeignBuffer c) ∷ host_holds_buffer held c ∷ room_in_table depth counts c
        ∷ lifetime_left lifetime counts c ∷ gate_open gate c ∷ []) }
{
    ask(pooled, Refusal::ForeignBuffer(c))?;
    ask(held, Refusal::NotHeld(c))?;
    ask(!optable::start::full(counts, depth), Refusal::QueueFull(c))?;
    ask(counts.submissions < lifetime, Refusal::LifetimeSpent(c))?;
    enter(gate, c)
}
