//! Laws of sorts, for readers of the contracts. Each function does nothing; its contract is the law.
ghost use Rattle.sort_term.specs.SortLaws.{ExprsKeepSorts, PatternsKeepSorts, StepsKeepStates, RunsKeepStates};

/// Under a valuation that fits, the value of an expression or a pattern is of its sort.
pub fn values_keep_sorts()
    ensures exprs { ExprsKeepSorts }
    ensures patterns { PatternsKeepSorts }
{}

/// A step of a semantics goes from a state to a state. So a run from a state goes through states alone.
pub fn steps_keep_states()
    ensures steps { StepsKeepStates }
    ensures runs { RunsKeepStates }
{}
