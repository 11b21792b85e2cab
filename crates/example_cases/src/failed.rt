//! What ends the program before its last case.
use no_memory::NoMemory;
use sexp_text::ReadError;
use std::alloc::{AllocError, AllocFailed};
use std::io;

/// Why a case has no answer.
#[derive(Debug, Drop)]
pub enum Failed {
    /// The line is no text of forms.
    NoForm,
    /// The form is no call that is known, or has other arguments.
    NoCall,
    /// There was no memory.
    NoMemory,
    /// Standard input or output failed.
    Stream(io::Error),
}

impl From<NoMemory> for Failed {
    fn from(_refused: NoMemory) -> Failed {
        Failed::NoMemory
    }
}

impl From<AllocError> for Failed {
    fn from(_refused: AllocError) -> Failed {
        Failed::NoMemory
    }
}

impl<T: Drop> From<AllocFailed<T>> for Failed {
    fn from(_refused: AllocFailed<T>) -> Failed {
        Failed::NoMemory
    }
}

impl From<ReadError> for Failed {
    fn from(error: ReadError) -> Failed {
        match error {
            ReadError::Text(_) => Failed::NoForm,
            ReadError::NoMemory => Failed::NoMemory,
        }
    }
}

impl From<io::Error> for Failed {
    fn from(error: io::Error) -> Failed {
        Failed::Stream(error)
    }
}
