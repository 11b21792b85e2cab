// Lines that several texts have. Each function writes behind what the text has.
ghost use Rattle.std.specs.Prelude.{◌≡◌, ◌++◌, OnOk};
ghost use Rattle.report_text.specs.Lines.{line_of};
ghost use Rattle.report_text.specs.States.{tree_text};
ghost use Rattle.report_text.specs.Reports.{rule_at};

use crate::states::write_tree;
use no_memory::NoMemory;
use sort_term::{Rule, RuleId, Semantics, Side, State};
use sqlite_items::at;
use std::alloc::Global;

pub fn write_line(text: &mut Vec<u8>, line: &str) -> Result<(), NoMemory>
    ensures { OnOk result (text.new.items ≡ text.old.items ++ line_of line.now) }
{
    text.extend_from_slice(line.as_bytes())?;
    text.push(b'\n')?;
    Ok(())
}

// The line of a rule, without its name where there is none.
pub fn write_rule(text: &mut Vec<u8>, rules: &[Rule], rule: RuleId) -> Result<(), NoMemory>
    ensures { OnOk result (text.new.items ≡ text.old.items ++ line_of (rule_at rules.now rule.0)) }
{
    text.extend_from_slice(b"rule ")?;
    if let Some(rule) = at(rules, rule.0) {
        text.extend_from_slice(rule.name.as_slice())?;
    }
    text.push(b'\n')?;
    Ok(())
}

// The line of a state, behind what says which state it is.
pub fn write_state<S: Side>(
    alloc: Global,
    text: &mut Vec<u8>,
    which: &str,
    semantics: &Semantics<S>,
    state: &State<S>,
) -> Result<(), NoMemory>
    ensures { OnOk result (text.new.items ≡ text.old.items ++ line_of (which.now ++ tree_text semantics.now.cons state.now.term)) }
{
    text.extend_from_slice(which.as_bytes())?;
    write_tree(alloc, text, semantics.cons().as_slice(), state.term())?;
    text.push(b'\n')?;
    Ok(())
}
