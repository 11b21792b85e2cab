//! Calls of the ground steps, of texts that load. A step is the place of its rule and the state after it.
//!
//! - `(steps SEMANTICS PROGRAM STATE)` answers the steps of the state, and `(first-run SEMANTICS PROGRAM STATE N)` those of the run
//!   by the first rule, with `stopped` where it has stopped and else `going`.
//! - `(runs SEMANTICS PROGRAM POINTS STATE N)` answers the met, the long and the halted runs up to the left cut, each by its steps,
//!   and `(in-cut SEMANTICS POINTS STATE)` whether the state is in that cut. The points are between the semantics and itself.
//! - `(related LEFT RIGHT POINTS STATE STATE)` answers the place of the point that relates the two states and the values of its
//!   variables, and `(point-states LEFT RIGHT POINTS)` the two states of each point. The programs have no rows.
ghost use Rattle.std.specs.Prelude.{◌≤◌};
ghost use Rattle.sort_term.specs.Step.{IsState};

use crate::loaded::{
    Machine, loaded_left_cuts, loaded_machine, loaded_semantics, loaded_state, problem_without_rows,
};
use example_cases::{Failed, Texts, number};
use ground_step::{
    Ended, Fit, GroundReach, Run, RunStep, cut_successors, first_run, in_cut, point_states,
    related, successors,
};
use sexp_text::Form;
use shown_terms::{Shown, term, value};
use sort_term::{Left, Problem, Right, Semantics, State};
use std::alloc::{AllocError, Global};

/// What the call with this name answers; None where there is no such call.
pub(crate) fn answer(
    alloc: Global,
    texts: &Texts,
    name: &[u8],
    arguments: &[Form],
) -> Result<Option<String>, Failed> {
    let answer = match arguments {
        [semantics, program, state] if name == b"steps".as_slice() => {
            steps_answer(alloc, texts, semantics, program, state)?
        }
        [semantics, program, state, count] if name == b"first-run".as_slice() => {
            first_run_answer(alloc, texts, semantics, program, state, count)?
        }
        [semantics, program, points, state, count] if name == b"runs".as_slice() => {
            runs_answer(alloc, texts, semantics, program, points, state, count)?
        }
        [semantics, points, state] if name == b"in-cut".as_slice() => {
            in_cut_answer(alloc, texts, semantics, points, state)?
        }
        [left, right, points, first, second] if name == b"related".as_slice() => {
            let problem = problem_without_rows(alloc, texts, left, right, points)?;
            let text = related_answer(alloc, texts, &problem, first, second);
            drop(problem);
            text?
        }
        [left, right, points] if name == b"point-states".as_slice() => {
            let problem = problem_without_rows(alloc, texts, left, right, points)?;
            let text = point_states_answer(alloc, &problem);
            drop(problem);
            text?
        }
        _ => return Ok(None),
    };
    Ok(Some(answer))
}

/// A number of steps.
pub fn step_count(form: &Form) -> Result<u32, Failed> {
    match u32::try_from(number(form)?) {
        Ok(count) => Ok(count),
        Err(_) => Err(Failed::NoCall),
    }
}

fn steps_answer(
    alloc: Global,
    texts: &Texts,
    semantics: &Form,
    program: &Form,
    state: &Form,
) -> Result<String, Failed> {
    let machine = loaded_machine(alloc, texts, semantics, program, state)?;
    let found = successors(alloc, &machine.semantics, &machine.program, &machine.state);
    drop(machine);
    let steps = found?;
    let text = shown_steps(alloc, steps.as_slice());
    drop(steps);
    Ok(text?)
}

fn shown_steps(alloc: Global, steps: &[RunStep<Left>]) -> Result<String, AllocError> {
    let mut out = Shown::new(alloc);
    put_steps(&mut out, steps)?;
    Ok(out.into_text())
}

fn put_steps(out: &mut Shown, steps: &[RunStep<Left>]) -> Result<(), AllocError> {
    if steps.is_empty() {
        return out.put("none");
    }
    for (place, step) in steps.iter().enumerate() {
        out.put(if place == 0 { "" } else { "; " })?;
        out.place("", step.rule.0)?;
        out.put(" ")?;
        term(out, step.state.term())?;
    }
    Ok(())
}

fn first_run_answer(
    alloc: Global,
    texts: &Texts,
    semantics: &Form,
    program: &Form,
    state: &Form,
    count: &Form,
) -> Result<String, Failed> {
    let count = step_count(count)?;
    let machine = loaded_machine(alloc, texts, semantics, program, state)?;
    let found = first_run(
        alloc,
        &machine.semantics,
        &machine.program,
        &machine.state,
        count,
    );
    drop(machine);
    let ended = found?;
    let text = shown_end(alloc, &ended);
    drop(ended);
    Ok(text?)
}

fn shown_end(alloc: Global, ended: &Ended<Left>) -> Result<String, AllocError> {
    let mut out = Shown::new(alloc);
    put_steps(&mut out, ended.run.steps.as_slice())?;
    out.put(if ended.stopped {
        "; stopped"
    } else {
        "; going"
    })?;
    Ok(out.into_text())
}

fn runs_answer(
    alloc: Global,
    texts: &Texts,
    semantics: &Form,
    program: &Form,
    points: &Form,
    state: &Form,
    count: &Form,
) -> Result<String, Failed> {
    let count = step_count(count)?;
    if count == 0 {
        return Err(Failed::NoCall);
    }
    let machine = loaded_machine(alloc, texts, semantics, program, state)?;
    let text = runs_to_cuts(alloc, texts, &machine, semantics, points, count);
    drop(machine);
    text
}

fn runs_to_cuts(
    alloc: Global,
    texts: &Texts,
    machine: &Machine,
    semantics: &Form,
    points: &Form,
    count: u32,
) -> Result<String, Failed>
    requires { 1 ≤ count }
{
    let cuts = loaded_left_cuts(alloc, texts, &machine.semantics, semantics, points)?;
    let found = cut_successors(
        alloc,
        &machine.semantics,
        &machine.program,
        &cuts,
        &machine.state,
        count,
    );
    drop(cuts);
    let reach = found?;
    let text = shown_reach(alloc, &reach);
    drop(reach);
    Ok(text?)
}

fn shown_reach(alloc: Global, reach: &GroundReach<Left>) -> Result<String, AllocError> {
    let mut out = Shown::new(alloc);
    out.put("met")?;
    put_runs(&mut out, reach.met.as_slice())?;
    out.put(", long")?;
    put_runs(&mut out, reach.long.as_slice())?;
    out.put(", halted")?;
    put_runs(&mut out, reach.halted.as_slice())?;
    Ok(out.into_text())
}

fn put_runs(out: &mut Shown, runs: &[Run<Left>]) -> Result<(), AllocError> {
    if runs.is_empty() {
        return out.put(" none");
    }
    for run in runs {
        out.put(" [")?;
        put_steps(out, run.steps.as_slice())?;
        out.put("]")?;
    }
    Ok(())
}

fn in_cut_answer(
    alloc: Global,
    texts: &Texts,
    semantics: &Form,
    points: &Form,
    state: &Form,
) -> Result<String, Failed> {
    let left: Semantics<Left> = loaded_semantics(alloc, texts, semantics)?;
    let told = is_in_cut(alloc, texts, &left, semantics, points, state);
    drop(left);
    let mut out = Shown::new(alloc);
    out.truth("", told?)?;
    Ok(out.into_text())
}

fn is_in_cut(
    alloc: Global,
    texts: &Texts,
    left: &Semantics<Left>,
    semantics: &Form,
    points: &Form,
    state: &Form,
) -> Result<bool, Failed> {
    let state = loaded_state(alloc, texts, left, state)?;
    let told = is_state_in_cut(alloc, texts, left, semantics, points, &state);
    drop(state);
    told
}

fn is_state_in_cut(
    alloc: Global,
    texts: &Texts,
    left: &Semantics<Left>,
    semantics: &Form,
    points: &Form,
    state: &State<Left>,
) -> Result<bool, Failed>
    requires { IsState left.now state.now.term }
{
    let cuts = loaded_left_cuts(alloc, texts, left, semantics, points)?;
    let told = in_cut(alloc, left, &cuts, state);
    drop(cuts);
    Ok(told?)
}

fn related_answer(
    alloc: Global,
    texts: &Texts,
    problem: &Problem,
    left: &Form,
    right: &Form,
) -> Result<String, Failed> {
    let left = loaded_state(alloc, texts, &problem.left, left)?;
    let fit = related_to(alloc, texts, problem, &left, right);
    drop(left);
    match fit? {
        Some(fit) => Ok(shown_fit(alloc, &fit)?),
        None => Ok(String::from_str(alloc, "none")?),
    }
}

fn related_to(
    alloc: Global,
    texts: &Texts,
    problem: &Problem,
    left: &State<Left>,
    right: &Form,
) -> Result<Option<Fit>, Failed>
    requires { IsState problem.now.left left.now.term }
{
    let right = loaded_state(alloc, texts, &problem.right, right)?;
    let fit = related(alloc, problem, left, &right);
    drop(right);
    Ok(fit?)
}

fn shown_fit(alloc: Global, fit: &Fit) -> Result<String, AllocError> {
    let mut out = Shown::new(alloc);
    out.place("point ", fit.point)?;
    for item in fit.values.as_slice() {
        out.put(" ")?;
        value(&mut out, item)?;
    }
    Ok(out.into_text())
}

fn point_states_answer(alloc: Global, problem: &Problem) -> Result<String, Failed> {
    let mut out = Shown::new(alloc);
    for point in problem.points.points.as_slice() {
        out.part("; ")?;
        match point_states(alloc, problem, point)? {
            Some((left, right)) => {
                let put = put_pair(&mut out, &left, &right);
                drop((left, right));
                put?;
            }
            None => out.put("none")?,
        }
    }
    Ok(out.into_text())
}

fn put_pair(out: &mut Shown, left: &State<Left>, right: &State<Right>) -> Result<(), AllocError> {
    term(out, left.term())?;
    out.put(" ")?;
    term(out, right.term())
}
