//! Nodes that are known to mean the same, or not to.
ghost use Rattle.std.specs.Prelude.{◌≡◌, [], ◌∷◌, List, true, nat_eq, IsSome, IsTrue, IfOk, IfSome, MatchOption};
ghost use Rattle.data_value.specs.declared.Value.{Value};
ghost use Rattle.data_value.specs.Sorts.{op_sort};
ghost use Rattle.data_value.specs.Nodes.{sorts_of};
ghost use Rattle.simplify.specs.Rewrites.{IsRewritten, IsIdempotent, IsScalarAtSame, word_at};

use crate::rewritten::Rewritten;
use data_value::{DataSort, NoMemory, Op, Scalar, Symbolic, is_same};

/// Whether two nodes mean one word under every valuation, or different ones under every valuation, if that is known.
pub(crate) fn same_word<D: Symbolic>(d: &D, a: &D::Node, b: &D::Node) -> Option<bool>
    requires first { IsTrue (D.look d.now a.now).valid }
    requires second { IsTrue (D.look d.now b.now).valid }
    ensures { MatchOption result (Unit {0}) (λ same. (v : List Value) → nat_eq (word_at (D.look d.now a.now) v) (word_at (D.look d.now b.now) v) ≡ same) }
{
    if is_same(d, a, b) {
        return Some(true);
    }
    match (d.known(a), d.known(b)) {
        (Some(Scalar::Bits { bits: x, .. }), Some(Scalar::Bits { bits: y, .. })) => Some(x == y),
        _ => None,
    }
}

/// What an operator at two nodes comes to that are one.
pub(crate) fn of_same<D: Symbolic>(
    d: &D,
    op: Op,
    a: &D::Node,
    b: &D::Node,
) -> Result<Option<Rewritten<D::Node>>, NoMemory>
    requires first { IsTrue (D.look d.now a.now).valid }
    requires second { IsTrue (D.look d.now b.now).valid }
    requires sorted { IsSome (op_sort op (sorts_of (D.look d.now) (a.now ∷ b.now ∷ []))) }
    ensures { IfOk result (λ o. IfSome o (IsRewritten (D.variables d.now) (D.look d.now) op (a.now ∷ b.now ∷ []))) }
{
    if !is_same(d, a, b) {
        return Ok(None);
    }
    if is_idempotent(op) {
        return Ok(Some(Rewritten::Node(d.copy(a)?)));
    }
    match scalar_at_same(op, d.sort(a)) {
        Some(scalar) => Ok(Some(Rewritten::Known(scalar))),
        None => Ok(None),
    }
}

// Whether an operator gives each value where it takes it twice.
fn is_idempotent(op: Op) -> bool
    ensures { result ≡ true → IsIdempotent op }
{
    match op {
        Op::And => true,
        Op::Or => true,
        Op::BvAnd => true,
        Op::BvOr => true,
        _ => false,
    }
}

// The scalar that an operator gives where it takes one value of a sort twice, if it is the same for all values.
fn scalar_at_same(op: Op, sort: DataSort) -> Option<Scalar>
    ensures { IfSome result (IsScalarAtSame op sort) }
{
    match (op, sort) {
        (Op::Eq, DataSort::Bool) => Some(Scalar::Flag(true)),
        (Op::Eq, DataSort::Bits(_)) => Some(Scalar::Flag(true)),
        (Op::Ule, DataSort::Bits(_)) => Some(Scalar::Flag(true)),
        (Op::Sle, DataSort::Bits(_)) => Some(Scalar::Flag(true)),
        (Op::Ult, DataSort::Bits(_)) => Some(Scalar::Flag(false)),
        (Op::Slt, DataSort::Bits(_)) => Some(Scalar::Flag(false)),
        (Op::Sub, DataSort::Bits(width)) => Some(Scalar::Bits { width, bits: 0 }),
        (Op::BvXor, DataSort::Bits(width)) => Some(Scalar::Bits { width, bits: 0 }),
        _ => None,
    }
}
