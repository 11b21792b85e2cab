// Why a reader of shapes answers nothing.
ghost use Rattle.std.specs.Prelude.{◌≡◌};
ghost use Rattle.rule_text.specs.declared.refused.ShapeError.TheVariants.{NoMemory as no_memory};

use no_memory::NoMemory;
use std::alloc::{AllocError, AllocFailed};

/// Why a reader of shapes answers nothing.
#[derive(Clone, Copy, Debug, PartialEq, Eq)]
pub enum ShapeError {
    /// The forms have the shape of nothing that was asked for.
    NoItem,
    /// There was no memory. Nothing is known of the forms then.
    NoMemory,
}

impl From<AllocError> for ShapeError {
    ghost from_gives = { λ _ e. e ≡ no_memory };

    fn from(_refused: AllocError) -> ShapeError {
        ShapeError::NoMemory
    }
}

impl<T: Drop> From<AllocFailed<T>> for ShapeError {
    ghost from_gives = { λ _ e. e ≡ no_memory };

    fn from(_refused: AllocFailed<T>) -> ShapeError {
        ShapeError::NoMemory
    }
}

impl From<NoMemory> for ShapeError {
    ghost from_gives = { λ _ e. e ≡ no_memory };

    fn from(_refused: NoMemory) -> ShapeError {
        ShapeError::NoMemory
    }
}
