// Runs of one side.
ghost use Rattle.std.specs.Prelude.{◌≡◌, IfOk, []};
ghost use Rattle.ground_step.specs.Steps.{step_of};
ghost use Rattle.ground_step.specs.Reach.{end_of, run_of};

use no_memory::NoMemory;
use sort_term::{Config, RuleId, Side, State, copy_term};
use sqlite_items::Items;
use std::alloc::Global;

/// A step of a run: the rule, and the state that it gives.
#[derive(Drop)]
pub struct RunStep<S: Side> {
    /// The rule, by its place in the semantics.
    pub rule: RuleId,
    /// The state after the step.
    pub state: State<S>,
}

/// Steps, each from the state of the one before.
pub type RunSteps<S> = Items<RunStep<S>>;

/// A state, and steps that begin there.
#[derive(Drop)]
pub struct Run<S: Side> {
    /// The state before the first step.
    pub start: State<S>,
    /// The steps.
    pub steps: RunSteps<S>,
}

/// A list of runs.
pub type Runs<S> = Items<Run<S>>;

/// A state that equals the given one.
pub fn copy_state<S: Side>(alloc: Global, state: &State<S>) -> Result<State<S>, NoMemory>
    ensures { IfOk result (λ copy. copy.term ≡ state.now.term) }
{
    Ok(Config::new(copy_term(alloc, state.term())?))
}

impl<S: Side> RunStep<S> {
    /// A step that equals this one.
    pub fn copy(&self, alloc: Global) -> Result<RunStep<S>, NoMemory>
        ensures { IfOk result (λ copy. step_of copy ≡ step_of self.now) }
    {
        Ok(RunStep {
            rule: self.rule,
            state: copy_state(alloc, &self.state)?,
        })
    }
}

impl<S: Side> Run<S> {
    /// The run without a step.
    pub fn at(alloc: Global, start: &State<S>) -> Result<Run<S>, NoMemory>
        ensures { IfOk result (λ run. run_of run ≡ (start.now.term, [])) }
    {
        Ok(Run {
            start: copy_state(alloc, start)?,
            steps: Items::new(alloc),
        })
    }

    /// A run that equals this one.
    pub fn copy(&self, alloc: Global) -> Result<Run<S>, NoMemory>
        ensures { IfOk result (λ copy. run_of copy ≡ run_of self.now) }
    {
        let mut steps = Items::new(alloc);
        for step in self.steps.as_slice() {
            steps.push(step.copy(alloc)?)?;
        }
        Ok(Run {
            start: copy_state(alloc, &self.start)?,
            steps,
        })
    }

    /// The state after the last step. It takes no memory.
    pub fn last(&self) -> &State<S>
        ensures { result.now.term ≡ end_of (run_of self.now) }
    {
        match self.steps.as_slice().last() {
            Some(step) => &step.state,
            None => &self.start,
        }
    }
}
