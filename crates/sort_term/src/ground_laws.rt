//! Laws of well grounded relations and of runs that always meet the cut, for readers of the contracts. Each function does
//! nothing; its contract is the law.
ghost use Rattle.sort_term.specs.GroundLaws.{WellGroundedIsGrounded, RunsSplitAtCuts};

use crate::term::Side;

/// Where each run of at least one step from a related state meets the cut within n steps, n being at least 1, no related state is
/// long or halted: a well grounded relation is grounded.
pub fn well_grounded_is_grounded()
    ensures { WellGroundedIsGrounded }
{}

/// Where runs from a state meet the cut within n steps again and again, each run from there is split at its states in the cut:
/// into runs up to the next one, and a rest without any.
pub fn runs_split_at_cuts<S: Side>()
    ensures { RunsSplitAtCuts S }
{}
