//! Sorts, values and trees in one line, as the programs of examples print them; and values, sorts and operators as their cases write them.
#![tactic(auto)]

pub mod operands;
mod shown;

pub use shown::{
    Shown, entries, expression, operator, pattern, scalar, sort, term, value, vars, whens,
};
