// The opening (store-io's store.rs and optable.rs make what is opened; the rules are document 01's): whether it is admitted, which is where all
// rules hold and the row memory is long enough, what it writes, and its reply.
//
// extents  the rules on card bytes
// numbers  the rules on the opening's own numbers, and on lengths
// plans    the rules on the regions that a plan lists
// store    the table, written into what is lent
#![tactic(auto)]

pub mod extents;
mod numbers;
pub mod plans;
pub mod store;

ghost use Rattle.std.specs.Prelude.{◌≡◌};
ghost use Rattle.model.specs.State.{fresh};
ghost use Rattle.model.specs.Opening.{opens};
ghost use Rattle.opening.specs.Opened.{opened_with};

use completion::Refusal;
use model::{Counts, Lengths, Opening};

// Whether all rules of an opening hold.
pub fn admits(o: Opening, plan: &[u64], l: Lengths) -> bool
    ensures { result ≡ opens o plan.now l }
{
    let regions = o.regions as usize;
    numbers::numbers(o)
        && numbers::lengths(o, l, plan.len() as u64)
        && crate::plans::each_region(plan, regions, o.block)
        && crate::plans::ids_rule(plan, regions)
        && crate::extents::within_rule(plan, regions, o.card)
        && crate::extents::apart_rule(plan, regions)
}

// The counts at first: no live row, no completion, no submission.
pub fn fresh() -> Counts
    ensures { result ≡ fresh }
{
    Counts {
        live: 0,
        ready: 0,
        submissions: 0,
    }
}

// The reply to an opening, by how many rows it has, if it is admitted: the table's counts, or 13.
pub fn reply(depth: Option<usize>) -> Result<Counts, Refusal>
    ensures { result ≡ opened_with depth }
{
    match depth {
        Some(_) => Ok(fresh()),
        None => Err(Refusal::Unfit),
    }
}
