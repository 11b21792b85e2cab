// Laws of the grammar, for readers of the contracts: none of them computes anything.
ghost use Rattle.std.specs.Prelude.{◌≡◌, ◌≤◌, ℕ, List, length, map};
ghost use Rattle.sexp_text.specs.Faults.{HasFault, IsFaultless, order_of};
ghost use Rattle.sexp_text.specs.Printed.{ArePrintable, IsPrinted, without_spans};
ghost use Rattle.sexp_text.specs.Spells.{Spells};
ghost use Rattle.sexp_text.specs.Text.{IsText};
ghost use Rattle.sexp_text.specs.declared.fault.TextFault.{TextFault};
ghost use Rattle.sexp_text.specs.declared.form.Form.{Form};

/// A text spells at most one list of forms, spans included.
pub fn spelling_is_unique()
    ensures { (bytes : List ℕ) (fs gs : List Form) →
        Spells bytes fs 0 (length bytes) → Spells bytes gs 0 (length bytes) → fs ≡ gs }
{}

/// A text of the grammar has no fault, so [`crate::read`] refuses none but for want of memory.
pub fn text_is_faultless()
    ensures { (bytes : List ℕ) (fs : List Form) → IsText bytes fs → IsFaultless bytes }
{}

/// Two faults of a text never share a place, so it has at most one first fault.
pub fn faults_are_apart()
    ensures { (bytes : List ℕ) (a b : TextFault) → HasFault bytes a → HasFault bytes b → order_of a ≡ order_of b → a ≡ b }
{}

/// Forms are read back from what [`crate::print`] writes of them. The words and numbers of the forms are those of the
/// grammar, and lists are at most 64 deep. Their texts stand one behind the other, each followed by a line feed, the last
/// one with it or without it, in at most 1,048,576 bytes. Then the text is in the grammar, with the same forms but for
/// spans; so [`crate::read`] answers these, or that there was no memory.
pub fn printed_forms_are_read()
    ensures { (bytes : List ℕ) (forms : List Form) →
        ArePrintable forms → IsPrinted bytes forms → length bytes ≤ 1048576 →
        (again : List Form) × IsText bytes again × (map without_spans again ≡ map without_spans forms) }
{}
