//! Laws of loading, for readers of the contracts. The functions do nothing; their contracts are the laws.
ghost use Rattle.std.specs.Prelude.{◌≡◌, ℕ, List};
ghost use Rattle.rule_text.specs.declared.error.LoadFault.{LoadFault};
ghost use Rattle.rule_text.specs.Faults.{IsFaultOf};
ghost use Rattle.sort_term.specs.declared.points.Points.{Points};
ghost use Rattle.sort_term.specs.System.{System};
ghost use Rattle.sync_points.specs.Pieces.{no_points};
ghost use Rattle.sync_points.specs.Loads.{points_loading};
ghost use Rattle.sync_points.specs.Text.{IsPointsText, AreLawful};

/// A text is that of at most one list of cuts and points between two semantics.
pub fn text_is_of_one_problem()
    ensures { (left right : System) (bytes : List ℕ) (p q : Points) →
        IsPointsText left right bytes p → IsPointsText left right bytes q → p ≡ q }
{}

/// A text has at most one first fault.
pub fn text_has_one_fault()
    ensures { (left right : System) (bytes : List ℕ) (f g : LoadFault) →
        IsFaultOf points_loading (no_points left right) bytes f → IsFaultOf points_loading (no_points left right) bytes g → f ≡ g }
{}

/// A text of cuts and points has no fault.
pub fn text_has_no_value_and_fault()
    ensures { (left right : System) (bytes : List ℕ) (p : Points) (f : LoadFault) →
        IsPointsText left right bytes p → ¬ IsFaultOf points_loading (no_points left right) bytes f }
{}

/// The cuts and points of a text pass the checks of cuts and points of the two semantics.
pub fn texts_load_points()
    ensures { (left right : System) (bytes : List ℕ) (p : Points) →
        IsPointsText left right bytes p → AreLawful left right p }
{}
