// The states of a point under values, and the run from a state by given rules.
ghost use Rattle.std.specs.Prelude.{◌≡◌, [], IfOk, map, option_map};
ghost use Rattle.sort_term.specs.Tree.{value as value_under};
ghost use Rattle.sort_term.specs.Sorted.{IsValuationOf};
ghost use Rattle.sort_term.specs.Step.{IsState};
ghost use Rattle.sort_term.specs.Problems.{IsPointOf, IsProgram};
ghost use Rattle.ground_step.specs.Fit.{plain_trees, some_plain};
ghost use Rattle.ground_step.specs.Reach.{LeadsTo};
ghost use Rattle.ground_step.specs.Steps.{term_of};

use crate::conditions::expression_tree;
use crate::run::copy_state;
use crate::steps::step;
use data_value::{Value, copy_value};
use no_memory::NoMemory;
use sort_term::{
    Config, Left, Point, Problem, Program, Right, RuleId, Semantics, Side, State, Term,
};
use sqlite_items::Items;
use std::alloc::Global;
use unify::Binds;

/// The two states that a point gives under values for its variables, one for each and of its sort.
pub fn states_under(
    alloc: Global,
    problem: &Problem,
    point: &Point,
    values: &[Value],
) -> Result<(State<Left>, State<Right>), NoMemory>
    requires point { IsPointOf problem.now.left problem.now.right point.now }
    requires values { IsValuationOf [] point.now.vars (plain_trees values.now) }
    ensures left { IfOk result (λ states. states.0.term ≡ value_under (plain_trees values.now) point.now.left) }
    ensures right { IfOk result (λ states. states.1.term ≡ value_under (plain_trees values.now) point.now.right) }
    ensures states { IfOk result (λ states. IsState problem.now.left states.0.term × IsState problem.now.right states.1.term) }
{
    let binds = bound_values(alloc, values)?;
    let left = expression_tree(alloc, &problem.left, &point.left, &binds)?;
    let right = expression_tree(alloc, &problem.right, &point.right, &binds)?;
    Ok((Config::new(left), Config::new(right)))
}

// Each variable bound to its value.
fn bound_values(alloc: Global, values: &[Value]) -> Result<Binds<Value>, NoMemory>
    ensures { IfOk result (λ binds. binds ≡ map some_plain values.now) }
{
    let mut binds = Items::new(alloc);
    for value in values {
        let value = copy_value(alloc, value)?;
        binds.push(Some(Term::Plain(value)))?;
    }
    Ok(binds)
}

/// The last state of the run from a state by these rules; None where there is no such run.
pub fn replay<S: Side>(
    alloc: Global,
    semantics: &Semantics<S>,
    program: &Program<S>,
    start: &State<S>,
    rules: &[RuleId],
) -> Result<Option<State<S>>, NoMemory>
    requires program { IsProgram semantics.now program.now }
    requires state { IsState semantics.now start.now.term }
    ensures { IfOk result
        (λ last. LeadsTo semantics.now program.now start.now.term (map (λ r. r.0) rules.now) (option_map term_of last)) }
{
    let count = semantics.rules().len();
    let mut state = copy_state(alloc, start)?;
    for rule in rules {
        if count <= rule.0 {
            return Ok(None);
        }
        match step(alloc, semantics, program, *rule, &state)? {
            Some(next) => state = next,
            None => return Ok(None),
        }
    }
    Ok(Some(state))
}
