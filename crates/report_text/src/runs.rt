//! The text of a run by the first rules.
ghost use Rattle.std.specs.Prelude.{◌≡◌, ◌++◌, map, IfOk, OnOk};
ghost use Rattle.ground_step.specs.Reach.{run_of};
ghost use Rattle.ground_step.specs.Steps.{steps_of};
ghost use Rattle.report_text.specs.Lines.{lines_of};
ghost use Rattle.report_text.specs.Reports.{rule_at};
ghost use Rattle.report_text.specs.Runs.{end_text, run_report};

use crate::lines::{write_line, write_rule, write_state};
use ground_step::{Ended, RunStep};
use no_memory::NoMemory;
use sexp_text::Bytes;
use sort_term::{Rule, Semantics, Side};
use sqlite_items::Items;
use std::alloc::Global;

/// The text of a run of a semantics that has come to its end: `rule NAME` for each step, `state STATE` of its last state, and
/// `stopped` where the run says that this has no step, else `going`, a line each. The only error is want of memory.
pub fn run_text<S: Side>(
    alloc: Global,
    semantics: &Semantics<S>,
    ended: &Ended<S>,
) -> Result<Bytes, NoMemory>
    ensures { IfOk result (λ text. text ≡ run_report semantics.now (run_of ended.now.run) ended.now.stopped) }
{
    let mut text = Vec::new(alloc);
    let rules = semantics.rules().as_slice();
    write_steps(&mut text, rules, ended.run.steps.as_slice())?;
    write_state(alloc, &mut text, "state ", semantics, ended.run.last())?;
    write_line(&mut text, end_line(ended.stopped))?;
    Ok(Items::from_vec(text))
}

fn end_line(stopped: bool) -> &'static str
    ensures { result.now ≡ end_text stopped }
{
    if stopped { "stopped" } else { "going" }
}

// The lines of the rules of the steps, behind what the text has.
fn write_steps<S: Side>(
    text: &mut Vec<u8>,
    rules: &[Rule],
    steps: &[RunStep<S>],
) -> Result<(), NoMemory>
    ensures { OnOk result (text.new.items
        ≡ text.old.items ++ lines_of (map (λ step. rule_at rules.now step.0) (steps_of steps.now))) }
{
    for step in steps {
        write_rule(text, rules, step.rule)?;
    }
    Ok(())
}
