// Why something was not made: a cause that a caller can be told, or want of memory.
ghost use Rattle.terms.specs.Failures.{by_cause, no_memory};
ghost use Rattle.std.specs.Prelude.{◌≡◌};

use super::refusal::Refusal;
use std::alloc::{AllocError, AllocFailed};

#[derive(Clone, Copy)]
pub enum Failure<E> {
    Cause(E),
    NoMemory,
}

// What can be such a cause. Want of memory is none, so that `?` takes each error to its own case.
pub trait Cause: Drop {}

impl Cause for Refusal {}

impl<E: Cause> From<E> for Failure<E> {
    ghost from_gives = { λ e r. r ≡ by_cause e };

    fn from(cause: E) -> Failure<E> {
        Failure::Cause(cause)
    }
}

impl<E> From<AllocError> for Failure<E> {
    ghost from_gives = { λ _ r. r ≡ no_memory };

    fn from(_error: AllocError) -> Failure<E> {
        Failure::NoMemory
    }
}

impl<E, T: Drop> From<AllocFailed<T>> for Failure<E> {
    ghost from_gives = { λ _ r. r ≡ no_memory };

    fn from(_refused: AllocFailed<T>) -> Failure<E> {
        Failure::NoMemory
    }
}
