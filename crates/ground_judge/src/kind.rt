// The kind of a verdict, without what shows it.
use ground_step::SideName;

/// A test that tells that a point isn't grounded.
#[derive(Clone, Copy, Debug, PartialEq, Eq)]
pub enum FailedTest {
    /// No valuation makes the point's conditions true.
    Void,
    /// The state of that side of a related pair of the point lies outside its cut.
    Outside(SideName),
    /// A run of that side stays outside the cut for all the steps.
    Long(SideName),
    /// A run of that side stops outside the cut.
    Halted(SideName),
}

/// The verdict for a number of steps, by its kind and its point. A point is named by its place in the text, counted from 0.
#[derive(Clone, Copy, Debug, PartialEq, Eq)]
pub enum VerdictKind {
    /// The relation that the points denote is a grounded cut-bisimulation.
    Equivalent,
    /// It is a grounded cut-simulation of the right by the left, and this is the first point where the left has a cut successor
    /// without a partner.
    Refines { point: usize },
    /// It is grounded, and this is the first point where the right has a cut successor without a partner.
    Unmatched { point: usize },
    /// This is the first point that isn't grounded, and of the seven tests that tell so the first that it has. They are
    /// taken in the order void, outside, long, halted, and the left before the right.
    NotGrounded { point: usize, test: FailedTest },
}
