// Steps of a state, and whether it is in the cut.
ghost use Rattle.std.specs.Prelude.{◌↔◌, ◌<◌, All, IfOk, IsTrue, MatchOption, length, option_map};
ghost use Rattle.sort_term.specs.Step.{IsState};
ghost use Rattle.sort_term.specs.Cuts.{InCut, IsCovered};
ghost use Rattle.sort_term.specs.Problems.{AreCuts, IsCut, IsProgram};
ghost use Rattle.ground_step.specs.Steps.{AreSteps, IsTrueBranch, IsTrueBranchAt, StepIs, steps_of, term_of};

use crate::conditions::{all_hold, all_true, is_true};
use crate::run::{RunStep, RunSteps};
use data_value::{Ground, Value};
use no_memory::NoMemory;
use sort_term::{Cut, Cuts, Program, RuleId, Semantics, Side, State};
use sqlite_items::Items;
use std::alloc::Global;
use unify::{Branch, Meet, branches, unify};

/// All steps of a state, in the order of the rules.
pub fn successors<S: Side>(
    alloc: Global,
    semantics: &Semantics<S>,
    program: &Program<S>,
    state: &State<S>,
) -> Result<RunSteps<S>, NoMemory>
    requires program { IsProgram semantics.now program.now }
    requires state { IsState semantics.now state.now.term }
    ensures { IfOk result (λ steps. AreSteps semantics.now program.now state.now.term (steps_of steps)) }
{
    let mut steps = Items::new(alloc);
    for place in 0..semantics.rules().len() {
        let rule = RuleId(place);
        if let Some(next) = step(alloc, semantics, program, rule, state)? {
            steps.push(RunStep { rule, state: next })?;
        }
    }
    Ok(steps)
}

/// The state that a rule gives from a state, if it applies.
pub fn step<S: Side>(
    alloc: Global,
    semantics: &Semantics<S>,
    program: &Program<S>,
    rule: RuleId,
    state: &State<S>,
) -> Result<Option<State<S>>, NoMemory>
    requires there { rule.0 < length semantics.now.rules }
    requires program { IsProgram semantics.now program.now }
    requires state { IsState semantics.now state.now.term }
    ensures { IfOk result (λ next. StepIs semantics.now program.now rule.0 state.now.term (option_map term_of next)) }
{
    // Reading its rules shows that the semantics has passed its checks.
    let _rules = semantics.rules();
    let mut ground = Ground::new(alloc);
    let mut found = branches(alloc, &mut ground, semantics, program, rule, state)?;
    match taken(found.as_slice()) {
        Some(place) => Ok(Some(found.remove(place).result)),
        None => Ok(None),
    }
}

// The place of the first branch whose condition is true.
fn taken<S: Side>(branches: &[Branch<S, Value>]) -> Option<usize>
    ensures { MatchOption result (All (λ b. ¬ IsTrueBranch b) branches.now) (IsTrueBranchAt branches.now) }
{
    for place in 0..branches.len() {
        if is_true(&branches[place].condition) {
            return Some(place);
        }
    }
    None
}

/// Whether a state is in the cut: one of the items has a pattern that fits it and conditions that are true.
pub fn in_cut<S: Side>(
    alloc: Global,
    semantics: &Semantics<S>,
    cuts: &Cuts<S>,
    state: &State<S>,
) -> Result<bool, NoMemory>
    requires cuts { AreCuts semantics.now cuts.now }
    requires state { IsState semantics.now state.now.term }
    ensures { IfOk result (λ is_in. IsTrue is_in ↔ InCut semantics.now.cons cuts.now state.now.term) }
{
    for cut in cuts.as_slice() {
        if in_item(alloc, semantics, cut, state)? {
            return Ok(true);
        }
    }
    Ok(false)
}

fn in_item<S: Side>(
    alloc: Global,
    semantics: &Semantics<S>,
    item: &Cut<S>,
    state: &State<S>,
) -> Result<bool, NoMemory>
    requires item { IsCut semantics.now item.now }
    requires state { IsState semantics.now state.now.term }
    ensures { IfOk result (λ is_in. IsTrue is_in ↔ IsCovered semantics.now.cons item.now state.now.term) }
{
    let mut ground = Ground::new(alloc);
    match unify(
        alloc,
        &mut ground,
        semantics,
        &item.vars,
        &item.pattern,
        state.term(),
    )? {
        Meet::Apart => Ok(false),
        Meet::Meets { binds, equations } => {
            if !all_true(equations.as_slice()) {
                return Ok(false);
            }
            Ok(all_hold(alloc, semantics, item.whens.as_slice(), &binds)?)
        }
    }
}
