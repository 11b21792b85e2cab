//! The text of a verdict that is made by hand: `(report LEFT RIGHT POINTS VERDICT)`, of two semantics and points between them that load. A
//! verdict is `equivalent`, `(void POINT)`, or `(KIND POINT SIDE VALUES LEFT-STATE RIGHT-STATE (RULE ..) SIDE STATE)` with the kind
//! `refines`, `unmatched`, `outside`, `long` or `halted`. Points and rules are places, the values are the arguments of the constructor of
//! a left state, and the last two are the state that the run reaches, behind its side.
use crate::loaded::{loaded_state, problem_without_rows};
use data_value::{Valuation, Value, copy_value};
use example_cases::{Failed, Texts, is_word, list, put_lines, small, word};
use ground_step::{Failure, Reached, SideName, Verdict};
use report_text::text;
use sexp_text::Form;
use sort_term::{Left, Problem, Right, RuleId, RuleIds, State, Term};
use sqlite_items::Items;
use std::alloc::Global;

/// What the call with this name answers; None where there is no such call.
pub(crate) fn answer(
    alloc: Global,
    texts: &Texts,
    name: &[u8],
    arguments: &[Form],
) -> Result<Option<String>, Failed> {
    match arguments {
        [left, right, points, verdict] if name == b"report".as_slice() => {
            let problem = problem_without_rows(alloc, texts, left, right, points)?;
            let told = report(alloc, texts, &problem, verdict);
            drop(problem);
            Ok(Some(told?))
        }
        _ => Ok(None),
    }
}

fn report(alloc: Global, texts: &Texts, problem: &Problem, form: &Form) -> Result<String, Failed> {
    let verdict = verdict_of(alloc, texts, problem, form)?;
    let written = text(alloc, problem, &verdict);
    drop(verdict);
    let written = written?;
    let mut told = String::new(alloc);
    put_lines(&mut told, written.as_slice())?;
    Ok(told)
}

fn verdict_of(
    alloc: Global,
    texts: &Texts,
    problem: &Problem,
    form: &Form,
) -> Result<Verdict, Failed> {
    if is_word(form, b"equivalent") {
        return Ok(Verdict::Equivalent);
    }
    match list(form)? {
        [kind, point] if is_word(kind, b"void") => Ok(Verdict::Void {
            point: small(point)?,
        }),
        [kind, parts @ ..] => failed_verdict(alloc, texts, problem, kind, parts),
        _ => Err(Failed::NoCall),
    }
}

fn failed_verdict(
    alloc: Global,
    texts: &Texts,
    problem: &Problem,
    kind: &Form,
    parts: &[Form],
) -> Result<Verdict, Failed> {
    let failure = failure(alloc, texts, problem, parts)?;
    match word(kind) {
        Ok(kind) => with_kind(kind.as_slice(), failure),
        Err(failed) => {
            drop(failure);
            Err(failed)
        }
    }
}

fn with_kind(kind: &[u8], failure: Failure) -> Result<Verdict, Failed> {
    if kind == b"refines".as_slice() {
        return Ok(Verdict::Refines(failure));
    }
    if kind == b"unmatched".as_slice() {
        return Ok(Verdict::Unmatched(failure));
    }
    if kind == b"outside".as_slice() {
        return Ok(Verdict::Outside(failure));
    }
    if kind == b"long".as_slice() {
        return Ok(Verdict::Long(failure));
    }
    if kind == b"halted".as_slice() {
        return Ok(Verdict::Halted(failure));
    }
    drop(failure);
    Err(Failed::NoCall)
}

fn failure(
    alloc: Global,
    texts: &Texts,
    problem: &Problem,
    parts: &[Form],
) -> Result<Failure, Failed> {
    let [
        point,
        side,
        values,
        left,
        right,
        rules,
        reached_side,
        reached,
    ] = parts
    else {
        return Err(Failed::NoCall);
    };
    let (point, side) = (small(point)?, side_name(side)?);
    let (rules, values) = rules_and_values(alloc, texts, problem, rules, values)?;
    match states(alloc, texts, problem, left, right, reached_side, reached) {
        Ok((left, right, reached)) => Ok(Failure {
            point,
            side,
            values,
            left,
            right,
            rules,
            reached,
        }),
        Err(failed) => {
            drop((rules, values));
            Err(failed)
        }
    }
}

fn side_name(form: &Form) -> Result<SideName, Failed> {
    if is_word(form, b"left") {
        return Ok(SideName::Left);
    }
    if is_word(form, b"right") {
        return Ok(SideName::Right);
    }
    Err(Failed::NoCall)
}

fn rule_ids(alloc: Global, forms: &[Form]) -> Result<RuleIds, Failed> {
    let mut rules = Items::new(alloc);
    for form in forms {
        rules.push(RuleId(small(form)?))?;
    }
    Ok(rules)
}

fn rules_and_values(
    alloc: Global,
    texts: &Texts,
    problem: &Problem,
    rules: &Form,
    values: &Form,
) -> Result<(RuleIds, Valuation), Failed> {
    let rules = rule_ids(alloc, list(rules)?)?;
    match values_of(alloc, texts, problem, values) {
        Ok(values) => Ok((rules, values)),
        Err(failed) => {
            drop(rules);
            Err(failed)
        }
    }
}

// The plain arguments of the constructor of a left state.
fn values_of(
    alloc: Global,
    texts: &Texts,
    problem: &Problem,
    form: &Form,
) -> Result<Valuation, Failed> {
    let state = loaded_state(alloc, texts, &problem.left, form)?;
    let values = arguments_of(alloc, state.term());
    drop(state);
    values
}

fn arguments_of(alloc: Global, tree: &Term<Value>) -> Result<Valuation, Failed> {
    let mut values = Items::new(alloc);
    if let Term::Con(_, trees) = tree {
        for tree in trees.as_slice() {
            if let Term::Plain(value) = tree {
                values.push(copy_value(alloc, value)?)?;
            }
        }
    }
    Ok(values)
}

// The two states of a point, and the state that a run reaches.
fn states(
    alloc: Global,
    texts: &Texts,
    problem: &Problem,
    left: &Form,
    right: &Form,
    side: &Form,
    reached: &Form,
) -> Result<(State<Left>, State<Right>, Reached), Failed> {
    let (left, right) = pair(alloc, texts, problem, left, right)?;
    match reached_state(alloc, texts, problem, side, reached) {
        Ok(reached) => Ok((left, right, reached)),
        Err(failed) => {
            drop((left, right));
            Err(failed)
        }
    }
}

fn pair(
    alloc: Global,
    texts: &Texts,
    problem: &Problem,
    left: &Form,
    right: &Form,
) -> Result<(State<Left>, State<Right>), Failed> {
    let left = loaded_state(alloc, texts, &problem.left, left)?;
    match loaded_state(alloc, texts, &problem.right, right) {
        Ok(right) => Ok((left, right)),
        Err(failed) => {
            drop(left);
            Err(failed)
        }
    }
}

fn reached_state(
    alloc: Global,
    texts: &Texts,
    problem: &Problem,
    side: &Form,
    state: &Form,
) -> Result<Reached, Failed> {
    match side_name(side)? {
        SideName::Left => Ok(Reached::Left(loaded_state(alloc, texts, &problem.left, state)?)),
        SideName::Right => Ok(Reached::Right(loaded_state(alloc, texts, &problem.right, state)?)),
    }
}
