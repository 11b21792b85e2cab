//! A symbolic domain whose nodes are boxed trees.
#![tactic(auto)]

mod copy;
mod expr;
mod meaning;
mod replacing;
mod trees;

pub use expr::{Expr, Exprs};
pub use meaning::value;
pub use replacing::substitute;
pub use trees::Trees;
