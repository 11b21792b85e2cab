//! The parts of a condition.
use simplify::Pair;

/// Parts of a condition, which is true exactly where the two nodes of each pair mean the same and all of the others are true.
#[derive(Drop)]
pub(crate) struct Parts<N> {
    /// Nodes that the condition makes equal: truth values, or words of one width.
    pub pairs: Vec<Pair<N>>,
    /// Conditions.
    pub others: Vec<N>,
}
