//! Laws of leaves, in every domain. Each function does nothing; its contract is the law.
ghost use Rattle.path_condition.specs.LeafLaws.{LeavesDependOnVariables, LeavesStay};

use sort_term::Side;

/// Leaves are the same leaves after their domain has grown, so what a list of leaves gives it gives from then on.
pub fn leaves_stay<S: Side, N>()
    ensures { LeavesStay S N }
{}

/// Where the meanings of nodes depend on the values of the domain's variables alone, so does what a list of leaves gives.
/// So variables that come later change nothing.
pub fn leaves_depend_on_variables<S: Side, N>()
    ensures { LeavesDependOnVariables S N }
{}
