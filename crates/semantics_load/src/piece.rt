// What an item says, with numbers in the place of names.
use sexp_text::Name;
use sort_term::{Con, Rule, SortId, Table};

/// What an item of a semantics says.
#[derive(Drop)]
pub enum Piece {
    /// The name of a sort.
    Sort(Name),
    /// A constructor.
    Con(Con),
    /// A table.
    Table(Table),
    /// The sort of the states.
    Config(SortId),
    /// A rule.
    Rule(Rule),
}
