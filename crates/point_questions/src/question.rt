//! Questions.
use ground_step::SideName;
use sqlite_items::Items;

/// What can be wrong with a point. A leaf is named by its place in the list of its side and its kind, counted from 0.
#[derive(Clone, Copy, Debug, PartialEq, Eq)]
pub enum Flaw {
    /// The state of that side of a related pair isn't in its cut.
    Outside(SideName),
    /// From the state of that side a run of as many steps as were searched stays outside the cut: this long leaf.
    Long(SideName, usize),
    /// From the state of that side a run stops outside the cut: this halted leaf.
    Halted(SideName, usize),
    /// The right state comes to the cut by this met leaf, and no left one is related to where it comes or undefined.
    RightFails(usize),
    /// The right state comes to the cut by this met leaf, and no left one is related to where it comes.
    RightMisses(usize),
    /// The left state comes to the cut by this met leaf, and no right one is related to where it comes.
    LeftFails(usize),
}

/// Whether something is wrong with a point.
#[derive(Drop)]
pub struct Question<N> {
    /// What a valuation that makes the formula true shows.
    pub flaw: Flaw,
    /// A node of sort bool.
    pub formula: N,
}

/// Questions, in the order in which they are to be asked.
pub type Questions<N> = Items<Question<N>>;
