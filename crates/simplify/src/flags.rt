//! Truth values of which something is known, and operators that take back another.
ghost use Rattle.std.specs.Prelude.{◌≡◌, [], ◌∷◌, true, false, Some, IsTrue, IfOk, IfSome};
ghost use Rattle.data_value.specs.declared.DataSort.TheVariants.{Bool as BoolSort};
ghost use Rattle.data_value.specs.declared.Op.TheVariants.{Not};
ghost use Rattle.data_value.specs.declared.Scalar.TheVariants.{Flag};
ghost use Rattle.data_value.specs.Sorts.{op_sort};
ghost use Rattle.data_value.specs.Nodes.{sorts_of};
ghost use Rattle.simplify.specs.Rewrites.{IsRewritten, IsKeeping, IsSettling, TakesBack};

use crate::rewritten::Rewritten;
use data_value::{DataSort, NoMemory, Op, Scalar, Symbolic, View};
use sqlite_items::Items;
use std::alloc::Global;

/// What an operator at two truth values comes to where the second is known.
pub(crate) fn beside_flag<D: Symbolic>(
    d: &D,
    op: Op,
    a: &D::Node,
    b: &D::Node,
) -> Result<Option<Rewritten<D::Node>>, NoMemory>
    requires first { IsTrue (D.look d.now a.now).valid }
    requires second { IsTrue (D.look d.now b.now).valid }
    ensures { IfOk result (λ o. IfSome o (IsRewritten (D.variables d.now) (D.look d.now) op (a.now ∷ b.now ∷ []))) }
{
    match (d.sort(a), d.known(b)) {
        (DataSort::Bool, Some(Scalar::Flag(flag))) => {
            if keeps(op, flag) {
                Ok(Some(Rewritten::Node(d.copy(a)?)))
            } else if settles(op, flag) {
                Ok(Some(Rewritten::Known(Scalar::Flag(flag))))
            } else {
                Ok(None)
            }
        }
        _ => Ok(None),
    }
}

/// What an operator at two truth values comes to where the first is known.
pub(crate) fn behind_flag<D: Symbolic>(
    d: &D,
    op: Op,
    a: &D::Node,
    b: &D::Node,
) -> Result<Option<Rewritten<D::Node>>, NoMemory>
    requires first { IsTrue (D.look d.now a.now).valid }
    requires second { IsTrue (D.look d.now b.now).valid }
    ensures { IfOk result (λ o. IfSome o (IsRewritten (D.variables d.now) (D.look d.now) op (a.now ∷ b.now ∷ []))) }
{
    match (d.known(a), d.sort(b)) {
        (Some(Scalar::Flag(flag)), DataSort::Bool) => {
            if keeps(op, flag) {
                Ok(Some(Rewritten::Node(d.copy(b)?)))
            } else if settles(op, flag) {
                Ok(Some(Rewritten::Known(Scalar::Flag(flag))))
            } else {
                Ok(None)
            }
        }
        _ => Ok(None),
    }
}

// Whether a truth value on either side of an operator changes no truth value.
fn keeps(op: Op, flag: bool) -> bool
    ensures { result ≡ true → IsKeeping op flag }
{
    match (op, flag) {
        (Op::And, true) => true,
        (Op::Or, false) => true,
        (Op::Eq, true) => true,
        _ => false,
    }
}

// Whether an operator gives a truth value wherever this stands on either side.
fn settles(op: Op, flag: bool) -> bool
    ensures { result ≡ true → IsSettling op flag }
{
    match (op, flag) {
        (Op::And, false) => true,
        (Op::Or, true) => true,
        _ => false,
    }
}

/// What an equality with false comes to: the negation of the other truth value.
pub(crate) fn beside_false<D: Symbolic>(
    alloc: Global,
    d: &D,
    op: Op,
    a: &D::Node,
    b: &D::Node,
) -> Result<Option<Rewritten<D::Node>>, NoMemory>
    requires first { IsTrue (D.look d.now a.now).valid }
    requires second { IsTrue (D.look d.now b.now).valid }
    ensures { IfOk result (λ o. IfSome o (IsRewritten (D.variables d.now) (D.look d.now) op (a.now ∷ b.now ∷ []))) }
{
    match op {
        Op::Eq => {
            if is_beside_false(d, a, b) {
                return Ok(Some(negation(alloc, d, a)?));
            }
            if is_beside_false(d, b, a) {
                return Ok(Some(negation(alloc, d, b)?));
            }
            Ok(None)
        }
        _ => Ok(None),
    }
}

// Whether a node is a truth value, and another one is known to be false.
fn is_beside_false<D: Symbolic>(d: &D, a: &D::Node, b: &D::Node) -> bool
    requires first { IsTrue (D.look d.now a.now).valid }
    requires second { IsTrue (D.look d.now b.now).valid }
    ensures { result ≡ true → ((D.look d.now a.now).sort ≡ BoolSort) × ((D.look d.now b.now).known ≡ Some (Flag false)) }
{
    match (d.sort(a), d.known(b)) {
        (DataSort::Bool, Some(Scalar::Flag(false))) => true,
        _ => false,
    }
}

// What the negation of a truth value comes to.
fn negation<D: Symbolic>(alloc: Global, d: &D, a: &D::Node) -> Result<Rewritten<D::Node>, NoMemory>
    requires { IsTrue (D.look d.now a.now).valid }
    ensures { IfOk result (IsRewritten (D.variables d.now) (D.look d.now) Not (a.now ∷ [])) }
{
    match taken_back(d, Op::Not, a)? {
        Some(found) => Ok(found),
        None => {
            let mut nodes = Items::new(alloc);
            nodes.push(d.copy(a)?)?;
            Ok(Rewritten::Apply(Op::Not, nodes))
        }
    }
}

/// What an operator comes to at a node to which it or another one was applied, where it takes that back.
pub(crate) fn taken_back<D: Symbolic>(
    d: &D,
    op: Op,
    a: &D::Node,
) -> Result<Option<Rewritten<D::Node>>, NoMemory>
    requires { IsTrue (D.look d.now a.now).valid }
    ensures { IfOk result (λ o. IfSome o (IsRewritten (D.variables d.now) (D.look d.now) op (a.now ∷ []))) }
{
    match d.view(a) {
        View::Apply(inner, args) => {
            match args {
                [x] => {
                    if takes_back(op, inner) {
                        Ok(Some(Rewritten::Node(d.copy(x)?)))
                    } else {
                        Ok(None)
                    }
                }
                _ => Ok(None),
            }
        }
        _ => Ok(None),
    }
}

// Whether an operator takes back what another one does.
fn takes_back(op: Op, inner: Op) -> bool
    ensures { result ≡ true → TakesBack op inner }
{
    match (op, inner) {
        (Op::Not, Op::Not) => true,
        (Op::BvNot, Op::BvNot) => true,
        (Op::Neg, Op::Neg) => true,
        _ => false,
    }
}
