// Where the conditions of an item hold.
ghost use Rattle.std.specs.Prelude.{◌≡◌, All, IfOk};
ghost use Rattle.data_value.specs.Nodes.{Extends};
ghost use Rattle.sort_term.specs.Tree.{IsTrueTree, value};
ghost use Rattle.sort_term.specs.Cuts.{AllTrue};
ghost use Rattle.unify.specs.Binds.{seen_binds, AreValid};
ghost use Rattle.cut_cover.specs.Conditions.{IsBoundCondition, IsTrueWhere};

use data_value::Domain;
use data_value::conditions::{both, flag};
use no_memory::NoMemory;
use sort_term::{RuleExpr, Semantics, Side, Term};
use std::alloc::Global;
use unify::{Binds, evaluate};

/// Where all conditions are true, each variable with the value of the term that it is bound to: a condition that is true under
/// exactly the valuations under which all of them are. Each is of sort bool, with variables that are bound to terms of valid nodes. The
/// only error is want of memory.
pub fn all_hold<S: Side, D: Domain>(
    alloc: Global,
    d: &mut D,
    semantics: &Semantics<S>,
    conditions: &[RuleExpr],
    binds: &Binds<D::Node>,
) -> Result<D::Node, NoMemory>
    requires valid { AreValid (seen_binds (D.look d.old) binds.now) }
    requires conditions { All (IsBoundCondition semantics.now.cons (seen_binds (D.look d.old) binds.now)) conditions.now }
    ensures extends { Extends (D.look d.old) (D.look d.new) }
    ensures same_variables { D.variables d.new ≡ D.variables d.old }
    ensures holding { IfOk result (λ n. IsTrueWhere (seen_binds (D.look d.old) binds.now) (λ w. AllTrue w conditions.now) (D.look d.new n)) }
{
    let mut joined = flag(d, true)?;
    for condition in conditions {
        let one = holding(alloc, d, semantics, condition, binds)?;
        joined = both(alloc, d, &joined, &one)?;
    }
    Ok(joined)
}

// Where one condition is true.
fn holding<S: Side, D: Domain>(
    alloc: Global,
    d: &mut D,
    semantics: &Semantics<S>,
    condition: &RuleExpr,
    binds: &Binds<D::Node>,
) -> Result<D::Node, NoMemory>
    requires valid { AreValid (seen_binds (D.look d.old) binds.now) }
    requires condition { IsBoundCondition semantics.now.cons (seen_binds (D.look d.old) binds.now) condition.now }
    ensures extends { Extends (D.look d.old) (D.look d.new) }
    ensures same_variables { D.variables d.new ≡ D.variables d.old }
    ensures holding { IfOk result (λ n. IsTrueWhere (seen_binds (D.look d.old) binds.now) (λ w. IsTrueTree (value w condition.now)) (D.look d.new n)) }
{
    match evaluate(alloc, d, semantics, condition, binds)? {
        Term::Plain(node) => Ok(node),
        Term::Con(..) => unreachable!(),
    }
}
