//! The semantics that a text writes: [`load`].
//!
//! # What is proved
//!
//! [`load`] answers the semantics of which the bytes are a text: a text of items each of which passes all checks behind those
//! before it and declares one thing more, until the sort of the states is told and all is declared that the semantics has. For
//! any other text it answers the first fault: that of the bytes; else that of the first item that fails a check, for the first
//! check that it fails, items counted from 1; else that no item tells the sort of the states. The checks, in this order:
//!
//! - `Shape`. It is a `sort`, `con`, `table`, `config` or `rule` item.
//! - `Name`. It names only what items before it declare, and a rule its own variables. It gives a name that none of its kind
//!   has, which for a sort, a constructor, a table or a variable is no reserved word. The sort of the states is told once, and
//!   rules come behind it.
//! - `Limit`. There are at most 64 sorts, 256 constructors with 16 arguments each, 16 tables and 1,000 rules; a rule has at most
//!   64 variables, 16 `let`s and 16 conditions. Widths are from 1 to 64, and written terms keep their limits.
//! - `Sort`. It uses sorts of data, and declared sorts that have a constructor by now, and the terms of a rule fit. A variable
//!   that stands more than once in the patterns of a rule is a truth value or a bit vector.
//! - `Unbound`. The patterns of a rule bind all its variables, each before a demand reads it.
//!
//! A text is that of one semantics at most ([`text_is_of_one_semantics`]), has one first fault at most
//! ([`text_has_one_fault`]), and never both ([`text_has_no_value_and_fault`]). A semantics that has a text is lawful as a whole
//! ([`texts_load_semantics`]), though no check looks at the whole. Want of memory is an answer of its own, and the only one
//! that no contract ties to the text.
#![tactic(auto)]

ghost use Rattle.std.specs.Prelude.{IfOk, IfErr};
ghost use Rattle.rule_text.specs.Faults.{IsLoadError};
ghost use Rattle.semantics_load.specs.Declaring.{nothing};
ghost use Rattle.semantics_load.specs.Loads.{semantics_loading};
ghost use Rattle.semantics_load.specs.Text.{IsSemanticsText};

mod binding;
mod checks;
mod draft;
mod laws;
mod limits;
mod naming;
mod piece;
mod pieces;
mod sorting;

use draft::SemanticsDraft;
pub use laws::{
    text_has_no_value_and_fault, text_has_one_fault, text_is_of_one_semantics, texts_load_semantics,
};
use rule_text::{FileKind, LoadError, load_text};
use sort_term::{Semantics, Side};
use std::alloc::Global;

/// Loads the text of a semantics: the answer is the semantics of which this is a text, or else the first fault of the text.
/// Want of memory is the only other answer.
pub fn load<S: Side>(alloc: Global, bytes: &[u8]) -> Result<Semantics<S>, LoadError>
    ensures ok { IfOk result (IsSemanticsText bytes.now) }
    ensures fault { IfErr result (IsLoadError semantics_loading nothing bytes.now) }
{
    let nothing = SemanticsDraft::new(alloc);
    let draft = load_text(alloc, FileKind::Semantics, nothing, bytes)?;
    Ok(draft.into_semantics())
}
