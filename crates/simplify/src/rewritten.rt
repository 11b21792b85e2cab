//! What operators come to.
use data_value::{Op, Scalar};
use sqlite_items::Items;

/// What an operator at nodes comes to.
#[derive(Drop)]
pub(crate) enum Rewritten<N> {
    /// This node.
    Node(N),
    /// This scalar, under every valuation.
    Known(Scalar),
    /// An operator at nodes.
    Apply(Op, Items<N>),
    /// An operator at a node and a scalar.
    With(Op, N, Scalar),
}
