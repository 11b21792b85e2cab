//! Laws of related pairs, for readers of the contracts. The function does nothing; its contract is the law.
ghost use Rattle.sort_term.specs.RelationLaws.{OneRelation};

/// A point of a problem relates two states under at most one valuation of its variables.
pub fn related_pairs_have_one_valuation()
    ensures { OneRelation }
{}
