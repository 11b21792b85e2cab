//! What the searches from a point's two configurations found.
use path_condition::Leaves;
use sort_term::{Config, Left, Right, Side};

/// A configuration of one side, and the runs from it up to the cut.
#[derive(Drop)]
pub struct SearchedSide<S: Side, N> {
    /// The configuration.
    pub start: Config<S, N>,
    /// Runs that end in the cut, and no state strictly between the first and the last is in it.
    pub met: Leaves<S, N>,
    /// Runs as long as was searched, of which no later state is in the cut.
    pub long: Leaves<S, N>,
    /// Runs of at least one step that end without a next one, of which no later state is in the cut.
    pub halted: Leaves<S, N>,
}

/// A point over a domain's variables, with both sides searched.
#[derive(Drop)]
pub struct SearchedPoint<N> {
    /// Where the point's conditions are true: a node of sort bool.
    pub condition: N,
    /// The left side.
    pub left: SearchedSide<Left, N>,
    /// The right side.
    pub right: SearchedSide<Right, N>,
}
