//! The report of a verdict.
ghost use Rattle.std.specs.Prelude.{◌≡◌, ◌++◌, ◌∷◌, [], map, codes, IfOk, OnOk};
ghost use Rattle.std.specs.List.{zip};
ghost use Rattle.ground_step.specs.Shows.{side_of, reached_side, reached_tree};
ghost use Rattle.report_text.specs.States.{tree_text};
ghost use Rattle.report_text.specs.Lines.{line_of, lines_of};
ghost use Rattle.report_text.specs.Reports.{
  verdict_text,
  side_text,
  value_line,
  value_lines,
  rule_at,
  system_on,
  point_at,
  point_line,
  failure_lines,
  further_lines,
  report_of,
};

use crate::lines::{write_line, write_rule, write_state};
use crate::values::write_value;
use data_value::Value;
use ground_step::{Failure, Reached, SideName, Verdict};
use no_memory::NoMemory;
use sexp_text::Bytes;
use sort_term::{Problem, Rule, RuleId, Var};
use sqlite_items::Items;
use std::alloc::Global;

/// The report of a verdict of a problem: the verdict, and but for `equivalent` the name of its point; where a failure shows it, also
/// the side, the values of the point's variables, the two states, the rules of the run and the state that it reaches, a line each. A
/// place in the failure where the problem has no point, rule or constructor has no name. The only error is want of memory.
pub fn text(alloc: Global, problem: &Problem, verdict: &Verdict) -> Result<Bytes, NoMemory>
    ensures { IfOk result (λ text. text ≡ report_of problem.now verdict.now) }
{
    let mut text = Vec::new(alloc);
    write_line(&mut text, verdict_name(verdict))?;
    write_further(alloc, &mut text, problem, verdict)?;
    Ok(Items::from_vec(text))
}

fn verdict_name(verdict: &Verdict) -> &'static str
    ensures { result.now ≡ verdict_text verdict.now }
{
    match verdict {
        Verdict::Equivalent => "equivalent",
        Verdict::Refines(_) => "refines",
        Verdict::Unmatched(_) => "unmatched",
        Verdict::Void { .. } => "not grounded: void",
        Verdict::Outside(_) => "not grounded: outside",
        Verdict::Long(_) => "not grounded: long",
        Verdict::Halted(_) => "not grounded: halted",
    }
}

// The lines behind the first.
fn write_further(
    alloc: Global,
    text: &mut Vec<u8>,
    problem: &Problem,
    verdict: &Verdict,
) -> Result<(), NoMemory>
    ensures { OnOk result (text.new.items ≡ text.old.items ++ lines_of (further_lines problem.now verdict.now)) }
{
    match verdict {
        Verdict::Equivalent => {}
        Verdict::Void { point } => write_point(text, problem, *point)?,
        Verdict::Refines(failure)
        | Verdict::Unmatched(failure)
        | Verdict::Outside(failure)
        | Verdict::Long(failure)
        | Verdict::Halted(failure) => write_failure(alloc, text, problem, failure)?,
    }
    Ok(())
}

fn write_failure(
    alloc: Global,
    text: &mut Vec<u8>,
    problem: &Problem,
    failure: &Failure,
) -> Result<(), NoMemory>
    ensures { OnOk result (text.new.items ≡ text.old.items ++ lines_of (failure_lines problem.now failure.now)) }
{
    write_point(text, problem, failure.point)?;
    write_line(text, side_line(failure.side))?;
    write_values(alloc, text, problem, failure)?;
    write_state(alloc, text, "left ", &problem.left, &failure.left)?;
    write_state(alloc, text, "right ", &problem.right, &failure.right)?;
    let rules = rules_on(problem, failure.side);
    write_rules(text, rules, failure.rules.as_slice())?;
    write_reached(alloc, text, problem, &failure.reached)?;
    Ok(())
}

// The line of a point, without its name where there is none.
fn write_point(text: &mut Vec<u8>, problem: &Problem, point: usize) -> Result<(), NoMemory>
    ensures { OnOk result (text.new.items ≡ text.old.items ++ line_of (point_line problem.now point)) }
{
    text.extend_from_slice(b"point ")?;
    if let Some(point) = problem.points.points.get(point) {
        text.extend_from_slice(point.name.as_slice())?;
    }
    text.push(b'\n')?;
    Ok(())
}

fn side_line(side: SideName) -> &'static str
    ensures { result.now ≡ side_text (side_of side) }
{
    match side {
        SideName::Left => "side left",
        SideName::Right => "side right",
    }
}

// The lines of the values of the point's variables, none where there is no point.
fn write_values(
    alloc: Global,
    text: &mut Vec<u8>,
    problem: &Problem,
    failure: &Failure,
) -> Result<(), NoMemory>
    ensures { OnOk result (text.new.items
        ≡ text.old.items ++ lines_of (value_lines (point_at problem.now failure.now.point) failure.now.values)) }
{
    if let Some(point) = problem.points.points.get(failure.point) {
        let vars = point.vars.as_slice();
        write_valuation(alloc, text, vars, failure.values.as_slice())?;
    }
    Ok(())
}

fn write_valuation(
    alloc: Global,
    text: &mut Vec<u8>,
    vars: &[Var],
    values: &[Value],
) -> Result<(), NoMemory>
    ensures { OnOk result (text.new.items ≡ text.old.items ++ lines_of (map value_line (zip vars.now values.now))) }
{
    for (var, value) in vars.iter().zip(values) {
        write_variable(alloc, text, var, value)?;
    }
    Ok(())
}

fn write_variable(
    alloc: Global,
    text: &mut Vec<u8>,
    var: &Var,
    value: &Value,
) -> Result<(), NoMemory>
    ensures { OnOk result (text.new.items ≡ text.old.items ++ line_of (value_line (var.now, value.now))) }
{
    text.extend_from_slice(b"value ")?;
    text.extend_from_slice(var.name.as_slice())?;
    text.push(b' ')?;
    write_value(alloc, text, value)?;
    text.push(b'\n')?;
    Ok(())
}

fn rules_on<'a>(problem: &'a Problem, side: SideName) -> &'a [Rule]
    ensures { result.now ≡ (system_on problem.now (side_of side)).rules }
{
    match side {
        SideName::Left => problem.left.rules().as_slice(),
        SideName::Right => problem.right.rules().as_slice(),
    }
}

fn write_rules(text: &mut Vec<u8>, rules: &[Rule], run: &[RuleId]) -> Result<(), NoMemory>
    ensures { OnOk result (text.new.items ≡ text.old.items ++ lines_of (map (λ r. rule_at rules.now r.0) run.now)) }
{
    for rule in run {
        write_rule(text, rules, *rule)?;
    }
    Ok(())
}

// The line of the state that a run reaches, with the constructors of its side.
fn write_reached(
    alloc: Global,
    text: &mut Vec<u8>,
    problem: &Problem,
    reached: &Reached,
) -> Result<(), NoMemory>
    ensures { OnOk result (text.new.items ≡ text.old.items
        ++ line_of (codes "reached " ++ tree_text (system_on problem.now (reached_side reached.now)).cons (reached_tree reached.now))) }
{
    match reached {
        Reached::Left(state) => write_state(alloc, text, "reached ", &problem.left, state),
        Reached::Right(state) => write_state(alloc, text, "reached ", &problem.right, state),
    }
}
