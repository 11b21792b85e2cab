// The verdict on a problem, with what shows it.
use data_value::Valuation;
use sort_term::{Left, Right, RuleIds, State};

/// One of the two sides, by name.
#[derive(Clone, Copy, Debug, PartialEq, Eq)]
pub enum SideName {
    Left,
    Right,
}

/// The last state of a run, on the side of the run.
#[derive(Drop)]
pub enum Reached {
    Left(State<Left>),
    Right(State<Right>),
}

/// A ground run that shows how a point fails.
#[derive(Drop)]
pub struct Failure {
    /// The point, by its place in the text.
    pub point: usize,
    /// The side of the run.
    pub side: SideName,
    /// A value for each of the point's variables.
    pub values: Valuation,
    /// The left state that the point gives under the values.
    pub left: State<Left>,
    /// The right state that the point gives under the values.
    pub right: State<Right>,
    /// The rules of a run from the state of the side. There are none where that state lies outside its cut.
    pub rules: RuleIds,
    /// The last state of the run.
    pub reached: Reached,
}

/// How the relation that the points denote stands, for a number of steps.
#[derive(Drop)]
pub enum Verdict {
    /// It is a grounded cut-bisimulation.
    Equivalent,
    /// It is a grounded cut-simulation of the right by the left, and the left has a cut successor without a partner.
    Refines(Failure),
    /// It is grounded, and the right has a cut successor without a partner.
    Unmatched(Failure),
    /// The point's conditions are never true.
    Void { point: usize },
    /// A related state lies outside its cut.
    Outside(Failure),
    /// A run stays outside the cut for all the steps.
    Long(Failure),
    /// A run stops outside the cut.
    Halted(Failure),
}
