//! Clauses that compute with words of bits: gates, and over them every operator on bit vectors. Each call adds variables and
//! clauses that fix the bits of its answer, and says nothing more of the variables before.
#![tactic(auto)]

mod bitwise;
mod builder;
mod comparison;
mod division;
mod free;
mod gates;
mod layout;
mod product;
mod shifts;
mod sums;

pub use bitwise::{and_words, mux_words, not_word, or_words, xor_words};
pub use builder::{Builder, constant};
pub use comparison::{below, below_or_equal, equal, signed_below, signed_below_or_equal};
pub use division::{Division, divide};
pub use free::fresh_word;
pub use gates::{and, mux, or, xor};
pub use layout::{concat, constant_word, extend_sign, extend_zero, extract};
pub use no_memory::NoMemory;
pub use product::multiply;
pub use refute_check::{Clauses, Lit};
pub use shifts::{shift_left, shift_right, shift_signed};
use sqlite_items::Items;
pub use sums::{add, negate, subtract};

/// The bits of a word, the lowest first.
pub type Word = Items<Lit>;
