//! Choices by conditions of which something is known.
ghost use Rattle.std.specs.Prelude.{◌≡◌, [], ◌∷◌, IsSome, IsTrue, IfOk, IfSome};
ghost use Rattle.data_value.specs.declared.Op.TheVariants.{Ite};
ghost use Rattle.data_value.specs.Sorts.{op_sort};
ghost use Rattle.data_value.specs.Nodes.{sorts_of};
ghost use Rattle.simplify.specs.Rewrites.{IsRewritten};

use crate::rewritten::Rewritten;
use data_value::{NoMemory, Op, Scalar, Symbolic, is_same};

/// What an operator at three nodes comes to, if a rewrite finds it.
pub(crate) fn choice<D: Symbolic>(
    d: &D,
    op: Op,
    condition: &D::Node,
    first: &D::Node,
    second: &D::Node,
) -> Result<Option<Rewritten<D::Node>>, NoMemory>
    requires condition { IsTrue (D.look d.now condition.now).valid }
    requires first { IsTrue (D.look d.now first.now).valid }
    requires second { IsTrue (D.look d.now second.now).valid }
    requires sorted { IsSome (op_sort op (sorts_of (D.look d.now) (condition.now ∷ first.now ∷ second.now ∷ []))) }
    ensures { IfOk result (λ o. IfSome o (IsRewritten (D.variables d.now) (D.look d.now) op (condition.now ∷ first.now ∷ second.now ∷ []))) }
{
    match op {
        Op::Ite => Ok(chosen(d, condition, first, second)?),
        _ => Ok(None),
    }
}

// What a choice comes to where its condition is known, or where it is between one node.
fn chosen<D: Symbolic>(
    d: &D,
    condition: &D::Node,
    first: &D::Node,
    second: &D::Node,
) -> Result<Option<Rewritten<D::Node>>, NoMemory>
    requires condition { IsTrue (D.look d.now condition.now).valid }
    requires first { IsTrue (D.look d.now first.now).valid }
    requires second { IsTrue (D.look d.now second.now).valid }
    requires sorted { IsSome (op_sort Ite (sorts_of (D.look d.now) (condition.now ∷ first.now ∷ second.now ∷ []))) }
    ensures { IfOk result (λ o. IfSome o (IsRewritten (D.variables d.now) (D.look d.now) Ite (condition.now ∷ first.now ∷ second.now ∷ []))) }
{
    if is_same(d, first, second) {
        return Ok(Some(Rewritten::Node(d.copy(first)?)));
    }
    match d.known(condition) {
        Some(Scalar::Flag(true)) => Ok(Some(Rewritten::Node(d.copy(first)?))),
        Some(Scalar::Flag(false)) => Ok(Some(Rewritten::Node(d.copy(second)?))),
        _ => Ok(None),
    }
}
