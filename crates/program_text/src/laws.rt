// Laws of loading, for readers of the contracts: none of them computes anything.
ghost use Rattle.std.specs.Prelude.{◌≡◌, ℕ, List};
ghost use Rattle.rule_text.specs.declared.error.LoadFault.{LoadFault};
ghost use Rattle.rule_text.specs.Faults.{IsFaultOf};
ghost use Rattle.sort_term.specs.Problems.{IsProgram};
ghost use Rattle.sort_term.specs.Step.{Tables, IsState};
ghost use Rattle.sort_term.specs.System.{System};
ghost use Rattle.sort_term.specs.Tree.{Tree};
ghost use Rattle.program_text.specs.Rows.{no_rows, program_loading};
ghost use Rattle.program_text.specs.States.{no_start, start_loading};
ghost use Rattle.program_text.specs.Text.{IsProgramText, IsStartText};

/// A text is that of at most one program of a semantics.
pub fn text_is_of_one_program()
    ensures { (s : System) (bytes : List ℕ) (p q : Tables) → IsProgramText s bytes p → IsProgramText s bytes q → p ≡ q }
{}

/// A text is that of at most one state of a semantics.
pub fn text_is_of_one_state()
    ensures { (s : System) (bytes : List ℕ) (t u : Tree) → IsStartText s bytes t → IsStartText s bytes u → t ≡ u }
{}

/// A text has at most one first fault as that of a program.
pub fn program_text_has_one_fault()
    ensures { (s : System) (bytes : List ℕ) (f g : LoadFault) →
        IsFaultOf program_loading (no_rows s) bytes f → IsFaultOf program_loading (no_rows s) bytes g → f ≡ g }
{}

/// A text has at most one first fault as that of a state.
pub fn start_text_has_one_fault()
    ensures { (s : System) (bytes : List ℕ) (f g : LoadFault) →
        IsFaultOf start_loading (no_start s) bytes f → IsFaultOf start_loading (no_start s) bytes g → f ≡ g }
{}

/// A text of a program has no fault as such.
pub fn program_text_has_no_value_and_fault()
    ensures { (s : System) (bytes : List ℕ) (p : Tables) (f : LoadFault) →
        IsProgramText s bytes p → ¬ IsFaultOf program_loading (no_rows s) bytes f }
{}

/// A text of a state has no fault as such.
pub fn start_text_has_no_value_and_fault()
    ensures { (s : System) (bytes : List ℕ) (t : Tree) (f : LoadFault) →
        IsStartText s bytes t → ¬ IsFaultOf start_loading (no_start s) bytes f }
{}

/// What the text of a program loads has one list of rows for each table, and each list is lawful for its table: at most 4,096
/// rows, no two with one key, each key within the table's width and each term of its sort.
pub fn texts_load_programs()
    ensures { (s : System) (bytes : List ℕ) (p : Tables) → IsProgramText s bytes p → IsProgram s p }
{}

/// What the text of a state loads is a state: a tree of the configuration sort.
pub fn texts_load_starts()
    ensures { (s : System) (bytes : List ℕ) (t : Tree) → IsStartText s bytes t → IsState s t }
{}
