//! Laws of the top call, for readers of the contracts. The function does nothing; its contract is the law.
ghost use Rattle.std.specs.Prelude.{Option};
ghost use Rattle.keq_cli.specs.Outside.{FileMap};
ghost use Rattle.keq_cli.specs.Outcome.{HasOneOutcome, Tells};
ghost use Rattle.keq_cli.specs.Words.{Command};

/// Where the shelf tells what it holds, or no file is named, what was asked for has at most one outcome: one status and one
/// report. So what [`crate::keq`] prints there is decided by the words and the contents of the files.
pub fn outcome_is_unique()
    ensures { (held : Option FileMap) (command : Option Command) → Tells held command → HasOneOutcome held command }
{}
