// The steps by one rule.
ghost use Rattle.std.specs.Prelude.{◌≡◌, ◌<◌, IfOk, length};
ghost use Rattle.data_value.specs.Nodes.{Extends};
ghost use Rattle.data_value.specs.Truth.{IsCondition};
ghost use Rattle.sort_term.specs.Problems.{IsProgram};
ghost use Rattle.sort_term.specs.NodeTerms.{seen_term};
ghost use Rattle.sort_term.specs.Step.{StepsBy};
ghost use Rattle.unify.specs.Branches.{IsConfiguration};
ghost use Rattle.path_condition.specs.Leaves.{seen_leaves};
ghost use Rattle.symbolic_step.specs.OneStep.{start_of, seen_path, AreByRule, AppliesWhere};

use crate::taken::taken;
use data_value::Domain;
use data_value::conditions::{either, flag};
use no_memory::NoMemory;
use path_condition::{Leaves, Path};
use sort_term::{Config, Program, RuleId, Semantics, Side};
use sqlite_items::Items;
use std::alloc::Global;
use unify::branches;

/// What a rule gives.
#[derive(Drop)]
pub(crate) struct ByRule<S: Side, N> {
    /// Where its steps lead.
    pub leaves: Leaves<S, N>,
    /// Where it gives a step from the configuration, whatever the path has supposed, a node of sort bool.
    pub applies: N,
}

/// The steps of a configuration at the end of a path by the rule with a number.
pub(crate) fn by_rule<S: Side, D: Domain>(
    alloc: Global,
    d: &mut D,
    semantics: &Semantics<S>,
    program: &Program<S>,
    config: &Config<S, D::Node>,
    path: &Path<D::Node>,
    rule: RuleId,
) -> Result<ByRule<S, D::Node>, NoMemory>
    requires program { IsProgram semantics.now program.now }
    requires config { IsConfiguration semantics.now (seen_term (D.look d.old) config.now.term) }
    requires path { IsCondition (D.look d.old path.now.condition) }
    requires rule { rule.0 < length semantics.now.rules }
    ensures extends { Extends (D.look d.old) (D.look d.new) }
    ensures same_variables { D.variables d.new ≡ D.variables d.old }
    ensures leaves { IfOk result
        (λ r. AreByRule (D.variables d.old) semantics.now (StepsBy semantics.now program.now rule.0) rule.0
        (start_of (seen_path (D.look d.old) path.now) (seen_term (D.look d.old) config.now.term))
        (seen_leaves (D.look d.new) r.leaves)) }
    ensures applies { IfOk result
        (λ r. AppliesWhere (D.variables d.old) (StepsBy semantics.now program.now rule.0)
        (seen_term (D.look d.old) config.now.term) (D.look d.new r.applies)) }
{
    let found = branches(alloc, d, semantics, program, rule, config)?;
    let mut leaves = Items::new(alloc);
    let mut applies = flag(d, false)?;
    for branch in found.as_slice() {
        if let Some(leaf) = taken(alloc, d, path, rule, branch)? {
            leaves.push(leaf)?;
        }
        applies = either(alloc, d, &applies, &branch.condition)?;
    }
    Ok(ByRule { leaves, applies })
}
