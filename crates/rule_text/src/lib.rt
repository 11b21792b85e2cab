//! Items as they are written: their shapes, before a name is looked up or a number is tested; the faults of a text; and
//! texts whose items act one after the other.
//!
//! # What is proved
//!
//! [`read_item`] answers the item that a form writes: a lawful item of this kind of text that is written as the form, but for
//! spans. Lawful says that variables and constructors have names that aren't reserved, that operators have their numbers and
//! arguments by the table [`OPERATORS`] and stand in expressions alone, that no map stands in a pattern, and that no sort is
//! named `bool`. Any other form is refused with [`ItemFault::Shape`], and a form writes one item at most
//! ([`forms_write_one_item`]). [`items`] answers the items of all forms of a text, or names the first form of no shape, counted
//! from 1; a start text has one item alone ([`items_are_unique`], [`misfits_are_unique`]).
//!
//! [`load_text`] is the one loop of all loaders. What the items of a text make is said by a [`Draft`]: which checks an item
//! passes behind others, one for each kind of fault, what it makes of what those before it made, and what the whole lacks. Its
//! answer is what the items of the text make, each passing all checks behind those before it, where nothing lacks. Else it is
//! the first fault of the text: that of its bytes; else that of the first item that has one, for the check with the lowest
//! number that the item doesn't pass, counted from 1; else what the whole lacks. Where what an item adds is determined, a text
//! has one such answer ([`texts_have_one_end`]).
//!
//! [`is_operator`] tells the rows of [`OPERATORS`]. Want of memory is an answer of its own, and the only one that no contract
//! ties to the arguments.
#![tactic(auto)]

mod error;
mod forms;
mod item;
mod laws;
mod loading;
mod operators;
mod parts;
mod refused;
mod shape;
mod tree;

pub use error::{ItemError, ItemFault, LoadError, LoadFault};
pub use item::{
    FileKind, Item, ItemList, NumberPairs, Numbers, RawDemand, RawDemands, RawSort, RawSorts,
    RawTree, RawTrees, RawVar, RawVars,
};
pub use laws::{forms_write_one_item, items_are_unique, misfits_are_unique, texts_have_one_end};
pub use loading::{Draft, load_text};
pub use operators::{OPERATORS, is_operator};
pub use shape::{items, read_item};
