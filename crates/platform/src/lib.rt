// The forms in which the card answers (store-io-platform's lib.rs: the result of a completion, and a refused submission).
#![tactic(auto)]

use domain::FirstCause;

// "Forms: a count; an OS error, marked media or not by the host; refused by the queue; refused with an OS error, marked likewise."
#[derive(Clone, Copy)]
pub enum Answer {
    Count(u64),
    Error { raw: u32, media: bool },
    Refused,
    RefusedWith { raw: u32, media: bool },
}

// "A flush result is a need or a failure: DurabilityUnknown, with its operation and with or without an OS error, or Poisoned with its cause."
#[derive(Clone, Copy)]
pub enum Flushed {
    Need(u64),
    Unknown(FirstCause),
    Poisoned(FirstCause),
}
