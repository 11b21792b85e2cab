// Laws of reading, for readers of the contracts: none of them computes anything.
ghost use Rattle.std.specs.Prelude.{ℕ, IsTrue, IsFalse, IsSome, IsNone, List, []};
ghost use Rattle.rule_text.specs.declared.item.RawTree.{RawTree};
ghost use Rattle.rule_text.specs.Lawful.{IsPattern, IsExpression, IsGround};
ghost use Rattle.name_resolution.specs.Known.{Vocabulary};
ghost use Rattle.name_resolution.specs.Named.{is_named_tree};
ghost use Rattle.name_resolution.specs.Within.{IsWithinTree};
ghost use Rattle.name_resolution.specs.Strays.{has_stray_number};
ghost use Rattle.name_resolution.specs.Reads.{pattern_of, expression_of, ground_of};

/// A tree that may stand in its place, names only what is known and keeps its limits is read, unless it has a stray number:
/// a bare one where nothing tells a width, at the top, as an operator's argument, or in a place of a constructor that is no
/// bit vector or behind its last one; or a bit of `extract` above 63.
pub fn lawful_trees_are_read()
    ensures patterns { (known : Vocabulary) (vars : List (List ℕ)) (raw : RawTree) →
        IsPattern raw → IsTrue (is_named_tree known vars raw) → IsWithinTree known raw → IsFalse (has_stray_number known raw) →
        IsSome (pattern_of known vars raw) }
    ensures expressions { (known : Vocabulary) (vars : List (List ℕ)) (raw : RawTree) →
        IsExpression raw → IsTrue (is_named_tree known vars raw) → IsWithinTree known raw → IsFalse (has_stray_number known raw) →
        IsSome (expression_of known vars raw) }
    ensures terms { (known : Vocabulary) (raw : RawTree) →
        IsGround raw → IsTrue (is_named_tree known [] raw) → IsWithinTree known raw → IsFalse (has_stray_number known raw) →
        IsSome (ground_of known raw) }
{}

/// A tree with a stray number is nothing.
pub fn stray_numbers_are_not_read()
    ensures patterns { (known : Vocabulary) (vars : List (List ℕ)) (raw : RawTree) →
        IsTrue (has_stray_number known raw) → IsNone (pattern_of known vars raw) }
    ensures expressions { (known : Vocabulary) (vars : List (List ℕ)) (raw : RawTree) →
        IsTrue (has_stray_number known raw) → IsNone (expression_of known vars raw) }
    ensures terms { (known : Vocabulary) (raw : RawTree) →
        IsTrue (has_stray_number known raw) → IsNone (ground_of known raw) }
{}
