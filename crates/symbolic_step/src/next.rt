//! One step of a configuration.
ghost use Rattle.std.specs.Prelude.{◌≡◌, IfOk, All};
ghost use Rattle.data_value.specs.Nodes.{Extends};
ghost use Rattle.data_value.specs.Truth.{IsCondition};
ghost use Rattle.sort_term.specs.Problems.{IsProgram};
ghost use Rattle.sort_term.specs.NodeTerms.{seen_term};
ghost use Rattle.sort_term.specs.Step.{StepsBy};
ghost use Rattle.unify.specs.Branches.{IsConfiguration};
ghost use Rattle.path_condition.specs.Leaves.{AreLeaves, seen_leaves};
ghost use Rattle.symbolic_step.specs.OneStep.{start_of, seen_path, StepsFrom, IsLive, IsStuckWhere};

use crate::by_rule::by_rule;
use data_value::Domain;
use data_value::conditions::{both, negation};
use no_memory::NoMemory;
use path_condition::{Leaves, Path};
use sort_term::{Config, Program, RuleId, Semantics, Side};
use sqlite_items::Items;
use std::alloc::Global;

/// What one step gives.
#[derive(Drop)]
pub struct Next<S: Side, N> {
    /// Where the steps lead, each with its rule at the end of its rules. The condition of none is known to be false.
    pub leaves: Leaves<S, N>,
    /// Where no step can be made, a node of sort bool.
    pub stuck: N,
}

/// All steps of a configuration at the end of a path. The program fits the semantics, the path's condition is a node of sort
/// bool, and the configuration is a term of valid nodes which by their sorts is of the configuration sort.
///
/// Under every valuation of the domain's variables, the leaves give exactly the steps from the configuration's value where
/// the path's condition is true: a leaf whose condition is true has the path's rules and at their end the rule of its step,
/// and its configuration means the state after that step. Where the path's condition isn't true, no leaf's condition is.
/// `stuck` is true exactly where the path's condition is true and no rule gives a step. The domain's variables stay as they
/// are. The only error is want of memory.
pub fn step<S: Side, D: Domain>(
    alloc: Global,
    d: &mut D,
    semantics: &Semantics<S>,
    program: &Program<S>,
    config: &Config<S, D::Node>,
    path: &Path<D::Node>,
) -> Result<Next<S, D::Node>, NoMemory>
    requires program { IsProgram semantics.now program.now }
    requires config { IsConfiguration semantics.now (seen_term (D.look d.old) config.now.term) }
    requires path { IsCondition (D.look d.old path.now.condition) }
    ensures extends { Extends (D.look d.old) (D.look d.new) }
    ensures same_variables { D.variables d.new ≡ D.variables d.old }
    ensures leaves { IfOk result
        (λ n. AreLeaves (D.variables d.old) semantics.now
        (StepsFrom (StepsBy semantics.now program.now)
        (start_of (seen_path (D.look d.old) path.now) (seen_term (D.look d.old) config.now.term)))
        (seen_leaves (D.look d.new) n.leaves)) }
    ensures live { IfOk result (λ n. All IsLive (seen_leaves (D.look d.new) n.leaves)) }
    ensures stuck { IfOk result
        (λ n. IsStuckWhere (D.variables d.old) (StepsBy semantics.now program.now)
        (start_of (seen_path (D.look d.old) path.now) (seen_term (D.look d.old) config.now.term))
        (D.look d.new n.stuck)) }
{
    let mut leaves = Items::new(alloc);
    let mut stuck = d.copy(&path.condition)?;
    for place in 0..semantics.rules().len() {
        let more = by_rule(alloc, d, semantics, program, config, path, RuleId(place))?;
        leaves.append(more.leaves)?;
        let elsewhere = negation(alloc, d, &more.applies)?;
        stuck = both(alloc, d, &stuck, &elsewhere)?;
    }
    Ok(Next { leaves, stuck })
}
