//! Laws of loading, for readers of the contracts. The functions do nothing; their contracts are the laws.
ghost use Rattle.std.specs.Prelude.{◌≡◌, ℕ, List};
ghost use Rattle.rule_text.specs.declared.error.LoadFault.{LoadFault};
ghost use Rattle.rule_text.specs.Faults.{IsFaultOf};
ghost use Rattle.sort_term.specs.Rules.{IsSemantics};
ghost use Rattle.sort_term.specs.System.{System};
ghost use Rattle.semantics_load.specs.Declaring.{nothing};
ghost use Rattle.semantics_load.specs.Loads.{semantics_loading};
ghost use Rattle.semantics_load.specs.Text.{IsSemanticsText};

/// A text is that of at most one semantics.
pub fn text_is_of_one_semantics()
    ensures { (bytes : List ℕ) (s t : System) → IsSemanticsText bytes s → IsSemanticsText bytes t → s ≡ t }
{}

/// A text has at most one first fault.
pub fn text_has_one_fault()
    ensures { (bytes : List ℕ) (f g : LoadFault) → IsFaultOf semantics_loading nothing bytes f → IsFaultOf semantics_loading nothing bytes g → f ≡ g }
{}

/// No text of a semantics has a fault.
pub fn text_has_no_value_and_fault()
    ensures { (bytes : List ℕ) (s : System) (f : LoadFault) → IsSemanticsText bytes s → ¬ IsFaultOf semantics_loading nothing bytes f }
{}

/// A semantics that has a text is lawful.
pub fn texts_load_semantics()
    ensures { (bytes : List ℕ) (s : System) → IsSemanticsText bytes s → IsSemantics s }
{}
