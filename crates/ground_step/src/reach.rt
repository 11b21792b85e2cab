// Runs up to the cut.
ghost use Rattle.std.specs.Prelude.{◌≡◌, ◌≢◌, ◌≤◌, [], ◌∷◌, ◌++◌, All, IfOk};
ghost use Rattle.sort_term.specs.Step.{IsState};
ghost use Rattle.sort_term.specs.Rules.{IsSemantics};
ghost use Rattle.sort_term.specs.Problems.{AreCuts, IsProgram};
ghost use Rattle.ground_step.specs.Steps.{step_of, steps_of};
ghost use Rattle.ground_step.specs.Reach.{AddsRuns, AreRuns, EndsInCut, EndsInState, EndsOutside, HaltedFrom, LongFrom, MeetsNext, MetFrom, NoneTwice, StaysOutside, StopsIn, StopsMovedIn, longer_run, run_of, runs_of, with_each};

use crate::run::{Run, RunStep, RunSteps, Runs};
use crate::steps::{in_cut, successors};
use no_memory::NoMemory;
use sort_term::{Cuts, Program, Semantics, Side, State};
use sqlite_items::Items;
use std::alloc::Global;

/// The runs from a state whose states between, without the first and the last, lie outside the cut.
#[derive(Drop)]
pub struct GroundReach<S: Side> {
    /// The runs of at least one step, up to the limit, whose last state is in the cut.
    pub met: Runs<S>,
    /// The runs of exactly as many steps as the limit, whose later states all lie outside the cut.
    pub long: Runs<S>,
    /// The runs of at least one step, up to the limit, whose later states all lie outside the cut and whose last state has no
    /// step. Those of exactly as many steps as the limit are in `long` too.
    pub halted: Runs<S>,
}

/// The runs of at most so many steps up to the cut.
pub fn cut_successors<S: Side>(
    alloc: Global,
    semantics: &Semantics<S>,
    program: &Program<S>,
    cuts: &Cuts<S>,
    state: &State<S>,
    steps: u32,
) -> Result<GroundReach<S>, NoMemory>
    requires program { IsProgram semantics.now program.now }
    requires cuts { AreCuts semantics.now cuts.now }
    requires state { IsState semantics.now state.now.term }
    requires steps { 1 ≤ steps }
    ensures met { IfOk result (λ reach. AreRuns (MetFrom semantics.now program.now cuts.now state.now.term steps) reach.met) }
    ensures long { IfOk result (λ reach. AreRuns (LongFrom semantics.now program.now cuts.now state.now.term steps) reach.long) }
    ensures halted { IfOk result (λ reach. AreRuns (HaltedFrom semantics.now program.now cuts.now state.now.term steps) reach.halted) }
{
    // Reading its rules shows that the semantics has passed its checks.
    let _rules = semantics.rules();
    let mut outside = Vec::new(alloc);
    outside.push(Run::at(alloc, state)?)?;
    let mut met = Items::new(alloc);
    let mut halted = Items::new(alloc);
    for _level in 0..steps {
        outside = next_level(
            alloc,
            semantics,
            program,
            cuts,
            outside,
            &mut met,
            &mut halted,
        )?;
    }
    note_halted(alloc, semantics, program, outside.as_slice(), &mut halted)?;
    Ok(GroundReach {
        met,
        long: Items::from_vec(outside),
        halted,
    })
}

// Notes those of the runs whose last states have no step.
fn note_halted<S: Side>(
    alloc: Global,
    semantics: &Semantics<S>,
    program: &Program<S>,
    runs: &[Run<S>],
    halted: &mut Runs<S>,
) -> Result<(), NoMemory>
    requires program { IsProgram semantics.now program.now }
    requires states { All (EndsInState semantics.now) (runs_of runs.now) }
    requires once { NoneTwice (runs_of runs.now) }
    ensures { IfOk result (λ _. AddsRuns (StopsIn semantics.now program.now runs.now) halted.old halted.new) }
{
    for run in runs {
        if successors(alloc, semantics, program, run.last())?.is_empty() {
            halted.push(run.copy(alloc)?)?;
        }
    }
    Ok(())
}

// The runs outside the cut that are one step longer. Those that end now are noted.
fn next_level<S: Side>(
    alloc: Global,
    semantics: &Semantics<S>,
    program: &Program<S>,
    cuts: &Cuts<S>,
    outside: Vec<Run<S>>,
    met: &mut Runs<S>,
    halted: &mut Runs<S>,
) -> Result<Vec<Run<S>>, NoMemory>
    requires lawful { IsSemantics semantics.now }
    requires program { IsProgram semantics.now program.now }
    requires cuts { AreCuts semantics.now cuts.now }
    requires states { All (EndsInState semantics.now) (runs_of outside.items) }
    requires once { NoneTwice (runs_of outside.items) }
    ensures outside { IfOk result (λ longer. AreRuns (StaysOutside semantics.now program.now cuts.now outside.items) longer.items) }
    ensures met { IfOk result (λ _. AddsRuns (MeetsNext semantics.now program.now cuts.now outside.items) met.old met.new) }
    ensures halted { IfOk result (λ _. AddsRuns (StopsMovedIn semantics.now program.now outside.items) halted.old halted.new) }
{
    let mut longer = Vec::new(alloc);
    for run in outside {
        let steps = successors(alloc, semantics, program, run.last())?;
        if steps.is_empty() {
            note_moved(run, halted)?;
        } else {
            let runs = with_each(alloc, run, steps)?;
            part(alloc, semantics, cuts, runs, &mut longer, met)?;
        }
    }
    Ok(longer)
}

// Notes a run as halted if it has a step.
fn note_moved<S: Side>(run: Run<S>, halted: &mut Runs<S>) -> Result<(), NoMemory>
    ensures { IfOk result (λ _. AddsRuns (λ p. (p ≡ run_of run) × (p.1 ≢ [])) halted.old halted.new) }
{
    if !run.steps.is_empty() {
        halted.push(run)?;
    }
    Ok(())
}

// The run with each of the steps behind it. The last step takes the run itself, so that a run without branches is never copied.
fn with_each<S: Side>(
    alloc: Global,
    run: Run<S>,
    steps: RunSteps<S>,
) -> Result<Vec<Run<S>>, NoMemory>
    ensures { IfOk result (λ runs. runs_of runs.items ≡ with_each (run_of run) (steps_of steps)) }
{
    let mut steps = steps;
    let Some(last) = steps.pop() else {
        drop((run, steps));
        return Ok(Vec::new(alloc));
    };
    let copies = copies_with_each(alloc, &run, steps.as_slice());
    drop(steps);
    match copies {
        Ok(runs) => with_last(runs, run, last),
        Err(error) => {
            drop((run, last));
            Err(error)
        }
    }
}

// A copy of the run for each of the steps, with the step behind it.
fn copies_with_each<S: Side>(
    alloc: Global,
    run: &Run<S>,
    steps: &[RunStep<S>],
) -> Result<Vec<Run<S>>, NoMemory>
    ensures { IfOk result (λ runs. runs_of runs.items ≡ with_each (run_of run.now) (steps_of steps.now)) }
{
    let mut runs = Vec::new(alloc);
    for step in steps {
        runs.push(copy_with(alloc, run, step)?)?;
    }
    Ok(runs)
}

// A copy of the run with the step behind it.
fn copy_with<S: Side>(alloc: Global, run: &Run<S>, step: &RunStep<S>) -> Result<Run<S>, NoMemory>
    ensures { IfOk result (λ longer. run_of longer ≡ longer_run (run_of run.now) (step_of step.now)) }
{
    let copy = run.copy(alloc)?;
    match step.copy(alloc) {
        Ok(step) => longer(copy, step),
        Err(error) => {
            drop(copy);
            Err(error)
        }
    }
}

// The runs, and the run with the step behind it as the last of them.
fn with_last<S: Side>(
    runs: Vec<Run<S>>,
    run: Run<S>,
    step: RunStep<S>,
) -> Result<Vec<Run<S>>, NoMemory>
    ensures { IfOk result (λ all. runs_of all.items ≡ runs_of runs.items ++ longer_run (run_of run) (step_of step) ∷ []) }
{
    let mut runs = runs;
    match longer(run, step) {
        Ok(run) => {
            runs.push(run)?;
            Ok(runs)
        }
        Err(error) => {
            drop(runs);
            Err(error)
        }
    }
}

// The run with the step behind it.
fn longer<S: Side>(run: Run<S>, step: RunStep<S>) -> Result<Run<S>, NoMemory>
    ensures { IfOk result (λ longer. run_of longer ≡ longer_run (run_of run) (step_of step)) }
{
    let mut run = run;
    run.steps.push(step)?;
    Ok(run)
}

// Notes the runs whose last states are in the cut as met, the others as still outside.
fn part<S: Side>(
    alloc: Global,
    semantics: &Semantics<S>,
    cuts: &Cuts<S>,
    runs: Vec<Run<S>>,
    outside: &mut Vec<Run<S>>,
    met: &mut Runs<S>,
) -> Result<(), NoMemory>
    requires cuts { AreCuts semantics.now cuts.now }
    requires states { All (EndsInState semantics.now) (runs_of runs.items) }
    requires once { NoneTwice (runs_of runs.items) }
    ensures outside { IfOk result (λ _. AddsRuns (EndsOutside semantics.now.cons cuts.now runs.items) outside.old.items outside.new.items) }
    ensures met { IfOk result (λ _. AddsRuns (EndsInCut semantics.now.cons cuts.now runs.items) met.old met.new) }
{
    for run in runs {
        if in_cut(alloc, semantics, cuts, run.last())? {
            met.push(run)?;
        } else {
            outside.push(run)?;
        }
    }
    Ok(())
}
