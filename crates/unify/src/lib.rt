//! Rules over the nodes of any domain: the value of an expression, what makes a pattern equal to a term, and the branches of
//! a rule.
#![tactic(auto)]

mod binds;
mod branch;
mod branching;
mod constants;
mod copy;
mod demands;
mod equations;
mod evaluation;
mod matching;
mod matchings;
mod meet;
mod plain;
mod rows;

pub use binds::{Binds, Nodes, unbound};
pub use branch::{Branch, BranchList};
pub use branching::branches;
pub use copy::copy_term;
pub use evaluation::evaluate;
pub use meet::{Meet, unify};
