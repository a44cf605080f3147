// What poisons a store, and the number of the flush that a write needs (store-io's domain/mod.rs: poison and ticket only).
#![tactic(auto)]

ghost use Rattle.std.specs.Prelude.{◌≡◌};
ghost use Rattle.domain.specs.Domain.{first_kept, need_after};

// "A cause is an operation (none, read, write or flush) with an OS error or none."
#[derive(Clone, Copy)]
pub enum Op {
    None,
    Read,
    Write,
    Flush,
}

// "OS errors are carried as unsigned 32-bit numbers".
pub type OsError = u32;

// A cause, with an OS error or none; the name is the Rust's, though causes that were not first are of this type too.
#[derive(Clone, Copy)]
pub struct FirstCause {
    pub op: Op,
    pub raw: Option<OsError>,
}

// What poisons the store after a cause: the first cause is kept (Domain::poison). Where nothing poisoned it, there is none.
pub fn poison(p: Option<FirstCause>, cause: FirstCause) -> Option<FirstCause>
    ensures { result ≡ first_kept p cause }
{
    Some(p.unwrap_or(cause))
}

// The flush that a write needs, from the flush count as it completes (Domain::ticket).
pub fn ticket(flushes: u64) -> u64
    ensures { result ≡ need_after flushes }
{
    flushes.wrapping_add(1)
}
