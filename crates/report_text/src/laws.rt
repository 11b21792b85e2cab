//! The law of printed states, for readers of the contracts. The function does nothing; its contract is the law.
ghost use Rattle.report_text.specs.Again.{PrintedStatesLoad};

/// What is printed of a state is a start text of the same state, where the names of the semantics' constructors are words of the
/// grammar, and the text has at most 1,048,576 bytes, lists at most 64 deep and at most 4,096 forms.
pub fn printed_states_load()
    ensures { PrintedStatesLoad }
{}
