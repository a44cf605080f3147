// The opening's rules on numbers and lengths: each function is the definition of its name in the model's Opening.
ghost use Rattle.std.specs.Prelude.{◌≡◌, ◌*◌, ◌≤◌, leb};
ghost use Rattle.model.specs.Opening.{between, all_true, number_rules, length_rules, capacity_rule, REGION};

use memory::{HEAD, REGION};
use model::{Lengths, Opening};

// x is lo to hi.
fn from_to(lo: u64, hi: u64, x: u64) -> bool
    ensures { result ≡ between lo hi x }
{
    lo <= x && x <= hi
}

// "capacity a positive multiple of the block, at most 65,536"
fn capacity_rule(o: Opening) -> bool
    ensures { result ≡ capacity_rule o }
{
    from_to(1, 65536, o.capacity) && layout::on_block(o.block, o.capacity)
}

// The rules on the opening's own numbers.
#[tactic(auto, unfolding(model::specs::Opening::all_true, model::specs::Opening::number_rules))]
pub(crate) fn numbers(o: Opening) -> bool
    ensures { result ≡ all_true (number_rules o) }
{
    from_to(1, 4096, o.depth)
        && layout::is_block(o.block)
        && from_to(1, 4096, o.buffers)
        && capacity_rule(o)
        && from_to(1, 0x4000_0000_0000_0000, o.lifetime)
        && from_to(1, 8, o.regions)
        && o.card <= 0x7fff_ffff_ffff_ffff
}

// "the pool holds exactly count × capacity bytes", and "the row memory long enough".
#[tactic(auto, unfolding(model::specs::Opening::all_true, model::specs::Opening::length_rules))]
pub(crate) fn lengths(o: Opening, l: Lengths, plan: u64) -> bool
    requires { (o.buffers ≤ 4096) × ((o.capacity ≤ 65536) × ((o.depth ≤ 4096) × (o.regions ≤ 8))) }
    ensures { result ≡ all_true (length_rules o (leb (REGION * o.regions) plan) l) }
{
    let bytes = o.buffers * o.capacity;
    let ready = 1 + 16 * o.depth;
    let listed = REGION as u64 * o.regions;
    let store = HEAD as u64 + listed;
    l.pool == bytes
        && o.depth <= l.rows
        && store <= l.store
        && o.depth <= l.free
        && ready <= l.ready
        && o.buffers <= l.owners
        && listed <= plan
}
