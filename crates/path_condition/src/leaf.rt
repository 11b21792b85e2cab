//! Leaves.
use sort_term::{Config, RuleIds, Side};
use sqlite_items::Items;

/// Where a run over the nodes of a domain ended.
#[derive(Drop)]
pub struct Leaf<S: Side, N> {
    /// The last configuration.
    pub config: Config<S, N>,
    /// What is supposed of the domain's variables, a node of sort bool.
    pub condition: N,
    /// The rules of the steps, in their order.
    pub rules: RuleIds,
}

/// Leaves, of which any number may hold under one valuation.
pub type Leaves<S, N> = Items<Leaf<S, N>>;
