//! Forms from bytes: [`read`] takes a text apart into words, numbers and lists, and [`print`] writes one form.
//!
//! # The grammar
//!
//! A text has at most 1,048,576 bytes, all of them ASCII. These stand in it:
//!
//! - Blanks: space, tab, line feed, carriage return.
//! - Comments. One begins with `;` and ends before the next line feed or at the end of the text. Every ASCII byte may
//!   stand in it, so a carriage return doesn't end it.
//! - Lists. `(` begins one and `)` ends it. They are nested at most 64 deep.
//! - Atoms: longest runs of atom bytes, which are the letters, the digits and `-_./+*<>=!?%@$`. So a blank, a `;` or a
//!   parenthesis ends an atom.
//!
//! An atom that begins with a digit is a number below 2^64: decimal digits alone, or `0x` and at least one hexadecimal
//! digit of either case. Any number of leading zeros is allowed. Every other atom is a word of at most 64 bytes.
//!
//! # What is proved
//!
//! [`read`] answers the forms of exactly the texts of the grammar, and for any other text its first fault. [`print`]
//! answers the one text that its contract defines. Want of memory is an answer of its own, and the only one that no
//! contract ties to the arguments. The laws join these contracts: a text of the grammar has no fault
//! ([`text_is_faultless`]) and one list of forms ([`spelling_is_unique`]), a text has one first fault
//! ([`faults_are_apart`]), and what is printed is read back ([`printed_forms_are_read`]).
#![tactic(auto)]

mod atom;
mod fault;
mod form;
mod laws;
mod printer;
mod reader;
mod tree;

pub use fault::{ReadError, TextFault};
pub use form::{Bytes, Form, FormKind, Forms, Name};
pub use laws::{faults_are_apart, printed_forms_are_read, spelling_is_unique, text_is_faultless};
pub use printer::print;
pub use reader::read;
