//! Want of memory, as an error of its own that every layer shares.
#![tactic(auto)]

use std::alloc::{AllocError, AllocFailed};

/// There was no memory. It says nothing of how much was asked for, and no contract ties it to a refused growth.
#[derive(Clone, Copy, Debug, PartialEq, Eq)]
pub struct NoMemory;

impl From<AllocError> for NoMemory {
    fn from(_refused: AllocError) -> NoMemory {
        NoMemory
    }
}

impl<T: Drop> From<AllocFailed<T>> for NoMemory {
    fn from(_refused: AllocFailed<T>) -> NoMemory {
        NoMemory
    }
}
