// The questions of a submission, asked in their order (store-io's submitter/mod.rs: the order of write, read_page and read).
ghost use Rattle.std.specs.Prelude.{◌≡◌};
ghost use Rattle.step.specs.Questions.{first_no, write_questions, read_questions};
ghost use Rattle.submission.specs.Asks.{Questions, write_list, read_list};

use completion::{Context, Refusal};
use domain::FirstCause;
use memory::HEAD;
use memory::liveregion::LiveRegion;
use model::{Counts, Opening, Request};
use region::ready::ask;

// A write's questions 2 to 14 in their order: 2 to 6, 7 to 9, 10 and 11, 12 to 14.
fn write_answers(
    o: Opening,
    counts: Counts,
    g: LiveRegion,
    poison: Option<FirstCause>,
    held: bool,
    q: Request,
) -> Result<(), Refusal>
    ensures { result ≡ first_no (write_list o counts g poison held q) }
{
    let c = region::ready::ctx(g.id);
    let pooled = crate::admit::in_pool(o.buffers, o.capacity, q);
    crate::admit::admit(counts, o.depth, o.lifetime, pooled, held, g.gate, c)?;
    region::ready::ready_for(o.read_only, poison, g.read_only, c)?;
    region::names(o.volume, g.id, g.generation, c, q)?;
    region::check(g.data, o.block, c, q)
}

// A read's questions but the first, in their order: 10 and 11, 2 to 6, 12 to 14.
fn read_answers(
    o: Opening,
    counts: Counts,
    g: LiveRegion,
    held: bool,
    q: Request,
) -> Result<(), Refusal>
    ensures { result ≡ first_no (read_list o counts g held q) }
{
    let c = region::ready::ctx(g.id);
    let pooled = crate::admit::in_pool(o.buffers, o.capacity, q);
    let ranged = region::ready::ctx_range(g.id, q.offset, q.length);
    region::names(o.volume, g.id, g.generation, c, q)?;
    crate::admit::admit(counts, o.depth, o.lifetime, pooled, held, g.gate, c)?;
    region::check(g.data, o.block, ranged, q)
}

// A write's questions, in their order; 13 where the words are too few.
pub fn ask_write(counts: Counts, store: &[u64], owners: &[u64], q: Request) -> Result<(), Refusal>
    ensures { Questions write_questions counts store.now owners.now q result }
{
    ask(HEAD <= store.len(), Refusal::Unfit)?;
    let o = memory::settings::settings(store);
    ask(
        q.handle < o.regions,
        Refusal::ForeignPosition(Context::None),
    )?;
    let g = memory::liveregion::region_at(store, q.handle);
    let held = crate::admit::held(owners, o.buffers, q.buffer);
    let poison = memory::liveregion::poisoned(store);
    write_answers(o, counts, g, poison, held, q)
}

// A read's questions, in their order; 13 where the words are too few.
pub fn ask_read(counts: Counts, store: &[u64], owners: &[u64], q: Request) -> Result<(), Refusal>
    ensures { Questions read_questions counts store.now owners.now q result }
{
    ask(HEAD <= store.len(), Refusal::Unfit)?;
    let o = memory::settings::settings(store);
    ask(
        q.handle < o.regions,
        Refusal::ForeignPosition(Context::None),
    )?;
    let g = memory::liveregion::region_at(store, q.handle);
    let held = crate::admit::held(owners, o.buffers, q.buffer);
    read_answers(o, counts, g, held, q)
}
