//! Names looked up, limits on numbers tested, and bare numbers given the widths of their places.
//!
//! What comes out has the numbers of variables, constructors, sorts and tables in the place of their names. Whether it is well
//! sorted, and keeps the other rules of an item, is for the checks of `sort_term` to tell.
//!
//! # What is proved
//!
//! Each test and each reading is exact. Where some sorts, constructors and tables are known ([`Known`]):
//!
//! - [`is_named_tree`] and [`is_named_sort`] tell whether a tree names only these variables and constructors that are known,
//!   and whether a sort is one of data or a declared one.
//! - [`is_within_tree`] and [`is_within_sort`] tell whether the limits are kept: a tree has at most 4,096 forms, a literal fits
//!   its width, the keys of a map rise, widths are from 1 to 64, and a bare number fits the width of its place.
//! - [`read_tree`] gives the pattern, the expression or the ground term that a tree is, and none exactly where it is none: one
//!   walk over what is told of each ([`Readable`]). [`read_expressions`] gives those of several trees in turn. A map literal is
//!   the map with its entries, those with the word zero left out.
//! - [`variable_names`] gives the names of variables, and none exactly where one is reserved or two are the same; [`variables`]
//!   gives the variables with their sorts, and none exactly where a sort is unknown or has a width that is none.
//! - [`lawful_trees_are_read`] and [`stray_numbers_are_not_read`] say which trees pass the tests and still are nothing: those
//!   with a number that is stray.
//!
//! Names have their places in the order in which they are declared ([`NameTable`]), and a loaded semantics gives what it
//! declares ([`Vocabulary`]). Want of memory is an answer of its own, and the only one that no contract ties to the arguments.
#![tactic(auto)]

mod declared_variables;
mod entries;
mod known;
mod laws;
mod lookup;
mod named;
mod names;
mod numbers;
mod operators;
mod reading;
mod size;
mod variable_checks;
mod vocabulary;
mod within;

pub use declared_variables::{variable_names, variables};
pub use known::Known;
pub use laws::{lawful_trees_are_read, stray_numbers_are_not_read};
pub use named::{is_named_sort, is_named_tree};
pub use names::NameTable;
pub use numbers::is_width;
pub use operators::OPERATOR_NAMES;
pub use reading::{Readable, read_expressions, read_tree};
pub use variable_checks::{are_sorts_named, are_vars_within};
pub use vocabulary::Vocabulary;
pub use within::{is_within_sort, is_within_tree};
