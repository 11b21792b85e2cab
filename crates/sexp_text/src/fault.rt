// Why a text is refused.
ghost use Rattle.sexp_text.specs.declared.fault.ReadError.TheVariants.{NoMemory as no_memory};
ghost use Rattle.std.specs.Prelude.{◌≡◌};

use no_memory::NoMemory;
use std::alloc::{AllocError, AllocFailed};

/// What is wrong with a text, each with an offset: the number of bytes before the place of the fault.
#[derive(Clone, Copy, Debug, PartialEq, Eq)]
pub enum TextFault {
    /// The text has more than 1,048,576 bytes; the offset is 1,048,576. A text that has this fault is refused for it,
    /// whatever else is wrong.
    TooLong(usize),
    /// A byte of 128 or more, also in a comment.
    NotAscii(usize),
    /// Outside comments, an ASCII byte that is no blank, no atom byte, no parenthesis and no `;`.
    BadChar(usize),
    /// A `)` where no list is open.
    Unopened(usize),
    /// A `(` inside 64 open lists.
    Deep(usize),
    /// An atom that begins with a digit and is neither decimal digits nor `0x` and hexadecimal digits, or has a value
    /// of 2^64 or more; the offset is that of its first byte.
    BadNumber(usize),
    /// A word of more than 64 bytes; the offset is that of its first byte.
    LongName(usize),
    /// The text ends inside a list; the offset is the number of bytes of the text.
    Unclosed(usize),
}

/// Why a text was not read.
#[derive(Clone, Copy, Debug, PartialEq, Eq)]
pub enum ReadError {
    /// The text is not in the grammar.
    Text(TextFault),
    /// There was no memory. Nothing is known of the text then.
    NoMemory,
}

impl From<NoMemory> for ReadError {
    ghost from_gives = { λ _ error. error ≡ no_memory };

    fn from(_: NoMemory) -> ReadError {
        ReadError::NoMemory
    }
}

impl From<AllocError> for ReadError {
    ghost from_gives = { λ _ error. error ≡ no_memory };

    fn from(_: AllocError) -> ReadError {
        ReadError::NoMemory
    }
}

impl<T: Drop> From<AllocFailed<T>> for ReadError {
    ghost from_gives = { λ _ error. error ≡ no_memory };

    fn from(_: AllocFailed<T>) -> ReadError {
        ReadError::NoMemory
    }
}

impl From<TextFault> for ReadError {
    ghost use Rattle.sexp_text.specs.declared.fault.ReadError.TheVariants.{Text};

    ghost from_gives = { λ fault error. error ≡ Text fault };

    fn from(fault: TextFault) -> ReadError {
        ReadError::Text(fault)
    }
}
