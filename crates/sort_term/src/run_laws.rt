//! Laws of runs, steps and verdicts, for readers of the contracts. Each function does nothing; its contract is the law.
ghost use Rattle.sort_term.specs.RunLaws.{MetRunsAreShort, HaltedRunsAreShort, SuccessorsAreNear, OneVerdict, UndefinedItemsAloneExcuse, OneInstance, OneStep, RulesFixRuns, OneCover};

use crate::term::Side;

/// Where no run of n steps from a state keeps its later states outside the cut, every run from that state up to the first
/// later state in the cut has at most n steps.
/// The same holds of the runs that stop outside the cut. So the cut successors are what runs of at most n steps reach.
pub fn met_runs_are_short<S: Side>()
    ensures met { MetRunsAreShort S }
    ensures halted { HaltedRunsAreShort S }
    ensures successors { SuccessorsAreNear S }
{}

/// A problem has at most one verdict for a number of steps.
pub fn verdict_is_unique()
    ensures { OneVerdict }
{}

/// Without undefined items a point at which the right has a cut successor without a partner is one at which it fails, so that a
/// relation is a cut-simulation up to undefined left states exactly where it is one.
pub fn undefined_items_alone_excuse()
    ensures { UndefinedItemsAloneExcuse }
{}

/// A rule that passed its checks takes a state to at most one state, under at most one valuation of its variables. So each
/// rule of a semantics gives at most one step from a state, and the rules alone fix a run from there.
pub fn rule_steps_are_unique()
    ensures instance { OneInstance }
    ensures step { OneStep }
    ensures runs { RulesFixRuns }
{}

/// An item of a cut that passed its checks covers a state under at most one valuation of its variables.
pub fn cut_valuations_are_unique<S: Side>()
    ensures { OneCover S }
{}
