// The leaf of one branch.
ghost use Rattle.std.specs.Prelude.{◌≡◌, IfOk, IsTrue, false};
ghost use Rattle.data_value.specs.Nodes.{Extends};
ghost use Rattle.data_value.specs.Truth.{IsCondition};
ghost use Rattle.sort_term.specs.NodeTerms.{seen_term, is_valid_term};
ghost use Rattle.unify.specs.Branches.{seen_branch};
ghost use Rattle.symbolic_step.specs.OneStep.{seen_path};
ghost use Rattle.symbolic_step.specs.Ends.{IsTakenTo};

use data_value::Domain;
use data_value::conditions::is_known_false;
use no_memory::NoMemory;
use path_condition::{Leaf, Path, extend};
use sort_term::{Config, RuleId, Side};
use std::alloc::Global;
use unify::{Branch, copy_term};

/// Where a branch of a rule leads from the end of a path: nowhere, if what both suppose is known to be false.
pub(crate) fn taken<S: Side, D: Domain>(
    alloc: Global,
    d: &mut D,
    path: &Path<D::Node>,
    rule: RuleId,
    branch: &Branch<S, D::Node>,
) -> Result<Option<Leaf<S, D::Node>>, NoMemory>
    requires path { IsCondition (D.look d.old path.now.condition) }
    requires condition { IsCondition (D.look d.old branch.now.condition) }
    requires result { IsTrue (is_valid_term (seen_term (D.look d.old) branch.now.result.term)) }
    ensures extends { Extends (D.look d.old) (D.look d.new) }
    ensures same_variables { D.variables d.new ≡ D.variables d.old }
    ensures leaf { IfOk result
        (λ leaf. IsTakenTo (D.look d.new) (seen_path (D.look d.old) path.now) rule.0
        (seen_branch (D.look d.old) branch.now) leaf) }
{
    let Path { condition, rules } = extend(alloc, d, path, &branch.condition, rule)?;
    if is_known_false(d, &condition) {
        return Ok(None);
    }
    let config = copy_term(alloc, d, branch.result.term())?;
    Ok(Some(Leaf {
        config: Config::new(config),
        condition,
        rules,
    }))
}
