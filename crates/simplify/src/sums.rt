//! Operators at two words of which one is known.
ghost use Rattle.std.specs.Prelude.{◌≡◌, ◌≤◌, ◌-◌, ◌^◌, [], ◌∷◌, true, IsSome, IsTrue, IfOk, IfSome};
ghost use Rattle.data_value.specs.declared.Scalar.TheVariants.{Bits};
ghost use Rattle.data_value.specs.Sorts.{op_sort};
ghost use Rattle.data_value.specs.Values.{IsScalar};
ghost use Rattle.data_value.specs.Nodes.{sorts_of};
ghost use Rattle.simplify.specs.Rewrites.{IsRewritten, IsWordRewritten, IsReplacing, IsNeutral, IsCommutative};

use crate::absorbing::{absorbed, absorbed_first};
use crate::rewritten::Rewritten;
use data_value::{DataSort, NoMemory, Op, Scalar, Symbolic};

/// What an operator at two words comes to where the second is known.
pub(crate) fn beside_known<D: Symbolic>(
    d: &D,
    op: Op,
    a: &D::Node,
    b: &D::Node,
) -> Result<Option<Rewritten<D::Node>>, NoMemory>
    requires first { IsTrue (D.look d.now a.now).valid }
    requires second { IsTrue (D.look d.now b.now).valid }
    requires sorted { IsSome (op_sort op (sorts_of (D.look d.now) (a.now ∷ b.now ∷ []))) }
    ensures { IfOk result (λ o. IfSome o (IsRewritten (D.variables d.now) (D.look d.now) op (a.now ∷ b.now ∷ []))) }
{
    match (d.sort(a), d.known(b)) {
        (DataSort::Bits(width), Some(Scalar::Bits { width: other, bits })) => {
            if width == other {
                Ok(at_word(d, op, a, width, bits)?)
            } else {
                Ok(None)
            }
        }
        _ => Ok(None),
    }
}

// What an operator at a word and a known one comes to.
fn at_word<D: Symbolic>(
    d: &D,
    op: Op,
    a: &D::Node,
    width: u8,
    bits: u64,
) -> Result<Option<Rewritten<D::Node>>, NoMemory>
    requires scalar { IsScalar (Bits width bits) }
    requires first { IsTrue (D.look d.now a.now).valid }
    ensures { IfOk result (λ o. IfSome o (IsWordRewritten (D.look d.now) (D.look d.now a.now) op width bits)) }
{
    if is_neutral(op, width, bits) {
        return Ok(Some(Rewritten::Node(d.copy(a)?)));
    }
    if let Some(scalar) = absorbed(op, width, bits) {
        return Ok(Some(Rewritten::Known(scalar)));
    }
    match by_power(op, width, bits) {
        Some((other, bits)) => {
            Ok(Some(Rewritten::With(other, d.copy(a)?, Scalar::Bits { width, bits })))
        }
        None => Ok(None),
    }
}

// The operator and the word that give what this operator gives with a power of two: moves and cuts in place of products, quotients and
// remainders.
fn by_power(op: Op, width: u8, bits: u64) -> Option<(Op, u64)>
    requires { IsScalar (Bits width bits) }
    ensures { IfSome result (λ r. IsReplacing op width bits r.0 r.1) }
{
    match (op, exponent(bits)) {
        (Op::Mul, Some(power)) => Some((Op::Shl, power)),
        (Op::Udiv, Some(power)) => Some((Op::Lshr, power)),
        (Op::Urem, Some(_)) => Some((Op::BvAnd, bits - 1)),
        _ => None,
    }
}

// The exponent of a power of two.
fn exponent(number: u64) -> Option<u64>
    ensures { IfSome result (λ power. number ≡ 2 ^ power) }
{
    for power in 0..64u64 {
        if number == 1u64 << power {
            return Some(power);
        }
    }
    None
}

/// What an operator at two words comes to where the first is known.
pub(crate) fn behind_known<D: Symbolic>(
    d: &D,
    op: Op,
    a: &D::Node,
    b: &D::Node,
) -> Result<Option<Rewritten<D::Node>>, NoMemory>
    requires first { IsTrue (D.look d.now a.now).valid }
    requires second { IsTrue (D.look d.now b.now).valid }
    requires sorted { IsSome (op_sort op (sorts_of (D.look d.now) (a.now ∷ b.now ∷ []))) }
    ensures { IfOk result (λ o. IfSome o (IsRewritten (D.variables d.now) (D.look d.now) op (a.now ∷ b.now ∷ []))) }
{
    match (d.known(a), d.sort(b)) {
        (Some(Scalar::Bits { width: other, bits }), DataSort::Bits(width)) => {
            if width != other {
                return Ok(None);
            }
            if is_commutative(op) {
                return Ok(at_word(d, op, b, width, bits)?);
            }
            match absorbed_first(op, width, bits) {
                Some(scalar) => Ok(Some(Rewritten::Known(scalar))),
                None => Ok(None),
            }
        }
        _ => Ok(None),
    }
}

// Whether a word changes no word on the left of an operator.
fn is_neutral(op: Op, width: u8, bits: u64) -> bool
    requires { IsScalar (Bits width bits) }
    ensures { result ≡ true → IsNeutral op width bits }
{
    match op {
        Op::Add => bits == 0,
        Op::Sub => bits == 0,
        Op::Mul => bits == 1,
        Op::Udiv => bits == 1,
        Op::BvAnd => bits == ones(width),
        Op::BvOr => bits == 0,
        Op::BvXor => bits == 0,
        Op::Shl => bits == 0,
        Op::Lshr => bits == 0,
        Op::Ashr => bits == 0,
        _ => false,
    }
}

// Whether an operator at two words gives the same in either order.
fn is_commutative(op: Op) -> bool
    ensures { result ≡ true → IsCommutative op }
{
    match op {
        Op::Add => true,
        Op::Mul => true,
        Op::BvAnd => true,
        Op::BvOr => true,
        Op::BvXor => true,
        _ => false,
    }
}

/// The word of a width of which all bits are set.
pub(crate) fn ones(width: u8) -> u64
    requires { width ≤ 64 }
    ensures { result ≡ 2 ^ width - 1 }
{
    ((1u128 << width) - 1) as u64
}
