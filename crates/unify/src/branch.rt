use sort_term::{Config, Side};
use sqlite_items::Items;

/// A step that a rule gives where its condition is true.
#[derive(Drop)]
pub struct Branch<S: Side, N> {
    /// The condition, a node of sort bool.
    pub condition: N,
    /// The configuration after the step.
    pub result: Config<S, N>,
}

/// The branches of a rule.
pub type BranchList<S, N> = Items<Branch<S, N>>;
