// What a refusal tells besides its number.
ghost use Rattle.std.specs.Prelude.{◌≡◌};
ghost use Rattle.completion.specs.Numbers.{values, number};
ghost use Rattle.completion.specs.Told.{told_values};

use crate::{Context, Refusal};
use domain::FirstCause;

// What a refusal tells besides its number.
#[derive(Clone, Copy)]
pub enum Told {
    Context(Context),
    Cause(FirstCause),
}

// What a refusal tells besides its number.
pub fn told_of(refusal: Refusal) -> Told
    ensures { told_values result ≡ values refusal }
{
    match refusal {
        Refusal::ForeignPosition(c) => Told::Context(c),
        Refusal::ForeignBuffer(c) => Told::Context(c),
        Refusal::QueueFull(c) => Told::Context(c),
        Refusal::StaleGeneration(c) => Told::Context(c),
        Refusal::NotReady(c) => Told::Context(c),
        Refusal::ReadOnly(c) => Told::Context(c),
        Refusal::Poisoned(f) => Told::Cause(f),
        Refusal::Empty(c) => Told::Context(c),
        Refusal::Misaligned(c) => Told::Context(c),
        Refusal::OutOfBounds(c) => Told::Context(c),
        Refusal::NotHeld(c) => Told::Context(c),
        Refusal::LifetimeSpent(c) => Told::Context(c),
        Refusal::Unfit => Told::Context(Context::None),
        Refusal::UnknownTag => Told::Context(Context::None),
        Refusal::NotAwaited => Told::Context(Context::None),
        Refusal::AbovePiece => Told::Context(Context::None),
    }
}

// The number of a refusal, as document 01 has it.
pub fn number_of(refusal: Refusal) -> u64
    ensures { result ≡ number refusal }
{
    match refusal {
        Refusal::ForeignPosition(_) => 1,
        Refusal::ForeignBuffer(_) => 2,
        Refusal::QueueFull(_) => 3,
        Refusal::StaleGeneration(_) => 4,
        Refusal::NotReady(_) => 5,
        Refusal::ReadOnly(_) => 6,
        Refusal::Poisoned(_) => 7,
        Refusal::Empty(_) => 8,
        Refusal::Misaligned(_) => 9,
        Refusal::OutOfBounds(_) => 10,
        Refusal::NotHeld(_) => 11,
        Refusal::LifetimeSpent(_) => 12,
        Refusal::Unfit => 13,
        Refusal::UnknownTag => 14,
        Refusal::NotAwaited => 15,
        Refusal::AbovePiece => 16,
    }
}
