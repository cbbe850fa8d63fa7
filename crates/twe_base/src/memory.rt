//! The error for running out of memory. It has no details.
ghost use Rattle.std.specs.Prelude.{◌≡◌, ◌≤◌, ◌+◌, ◌-◌, ◌^◌, length, IfOk, OnErr};

use std::alloc::{AllocError, AllocFailed};
use std::error::Error;
use std::fmt;

/// There was not enough memory. Every crate uses this error for it.
///
/// It comes from an error of an allocation, from a count at the end of its integer type, or from a list of 2^32 - 1 items or
/// more. No clause says that an allocation failed: any code can name an `AllocError`.
#[derive(Clone, Copy, Debug, PartialEq, Eq)]
pub struct Memory {
    shortage: Shortage,
}

/// What ran short.
#[derive(Clone, Copy, Debug, PartialEq, Eq)]
enum Shortage {
    /// An allocation failed.
    Room,
    /// A count does not fit its integer type.
    Numbers,
}

impl Memory {
    /// The error for a list of so many items that 32 bits cannot count them and the place after the last.
    pub fn of_uncountable<T>(items: &[T]) -> Self
        requires { 2 ^ 32 - 1 ≤ length items.now }
    {
        let _ = items;
        Self::of_numbers()
    }

    /// The count after this one. It fails only at the end of the type.
    pub fn next_count(count: usize) -> Result<usize, Self>
        ensures next { IfOk result (λ next. next ≡ count + 1) }
        ensures last { OnErr result (count ≡ 2 ^ 64 - 1) }
    {
        match count.checked_add(1) {
            Some(next) => Ok(next),
            None => Err(Self::of_numbers()),
        }
    }

    /// The error for a count that does not fit its integer type.
    fn of_numbers() -> Self {
        Memory {
            shortage: Shortage::Numbers,
        }
    }
}

impl fmt::Display for Memory {
    fn fmt<W: fmt::Write>(&self, f: &mut fmt::Formatter<W>) -> fmt::Result {
        f.write_str("out of memory")
    }
}

impl Error for Memory {}

impl From<AllocError> for Memory {
    fn from(_: AllocError) -> Self {
        Memory {
            shortage: Shortage::Room,
        }
    }
}

impl<T: Drop> From<AllocFailed<T>> for Memory {
    fn from(_: AllocFailed<T>) -> Self {
        Memory {
            shortage: Shortage::Room,
        }
    }
}
