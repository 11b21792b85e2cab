//! Laws of partners, for readers of the contracts. The function does nothing; its contract is the law.
ghost use Rattle.sort_term.specs.PartnerLaws.{MatchedIsSimulation, MatchedIsBisimulation};

/// Where each cut successor has a partner, or where the right lacks one the left may come to an undefined state, no point fails. Where each has
/// one, none misses.
pub fn partners_leave_no_failure()
    ensures simulation { MatchedIsSimulation }
    ensures bisimulation { MatchedIsBisimulation }
{}
