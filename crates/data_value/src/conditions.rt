//! Conditions, which are nodes that mean truth values, and how they are joined. What is known of them is folded, so a
//! condition whose parts are all known is known.
ghost use Rattle.std.specs.Prelude.{◌≡◌, ◌↔◌, ◌&&◌, ◌||◌, Bool, List, true, false, not, map, All, IsTrue, IfOk, IfSome, MatchOption, Some, None};
ghost use Rattle.data_value.specs.declared.Scalar.{Scalar as ScalarOf};
ghost use Rattle.data_value.specs.declared.Value.{Value as ValueOf};
ghost use Rattle.data_value.specs.Sorts.{is_scalar_sort};
ghost use Rattle.data_value.specs.Values.{same_scalar};
ghost use Rattle.data_value.specs.Nodes.{Extends};
ghost use Rattle.data_value.specs.Truth.{truth, all_true, mean_same, IsCondition, IsTruth, IsKnownAs, IsFoldedFrom, IsAllFoldedFrom};

use crate::applied::{apply_to_one, apply_to_two};
use crate::{Domain, NoMemory, Op, Scalar, Value};
use std::alloc::Global;

/// The truth value that a condition is known to have under every valuation, None where none is known. It takes no
/// memory.
pub fn known_truth<D: Domain>(d: &D, a: &D::Node) -> Option<bool>
    requires { IsCondition (D.look d.now a.now) }
    ensures known { MatchOption result ((D.look d.now a.now).known ≡ None) (λ b. IsKnownAs b (D.look d.now a.now)) }
    ensures means { IfSome result (λ b. (v : List ValueOf) → truth (D.look d.now a.now) v ≡ b) }
{
    match d.known(a) {
        Some(Scalar::Flag(b)) => Some(b),
        Some(Scalar::Bits { .. }) => unreachable!(),
        None => None,
    }
}

/// Whether a condition is known to be false under every valuation. It takes no memory.
pub fn is_known_false<D: Domain>(d: &D, condition: &D::Node) -> bool
    requires { IsCondition (D.look d.now condition.now) }
    ensures known { IsTrue result ↔ IsKnownAs false (D.look d.now condition.now) }
    ensures means { IsTrue result → (v : List ValueOf) → truth (D.look d.now condition.now) v ≡ false }
{
    known_truth(d, condition) == Some(false)
}

/// A condition that has this truth value under every valuation. It fails only for want of memory.
pub fn flag<D: Domain>(d: &mut D, b: bool) -> Result<D::Node, NoMemory>
    ensures extends { Extends (D.look d.old) (D.look d.new) }
    ensures same_variables { D.variables d.new ≡ D.variables d.old }
    ensures means { IfOk result (λ n. IsTruth (D.look d.new n) (λ v. b)) }
    ensures knows { IfOk result (λ n. IsKnownAs b (D.look d.new n)) }
{
    Ok(d.constant(&Value::One(Scalar::Flag(b)))?)
}

/// A condition that is true exactly where both of two are. It fails only for want of memory.
pub fn both<D: Domain>(
    alloc: Global,
    d: &mut D,
    a: &D::Node,
    b: &D::Node,
) -> Result<D::Node, NoMemory>
    requires first { IsCondition (D.look d.old a.now) }
    requires second { IsCondition (D.look d.old b.now) }
    ensures extends { Extends (D.look d.old) (D.look d.new) }
    ensures same_variables { D.variables d.new ≡ D.variables d.old }
    ensures means { IfOk result (λ n. IsTruth (D.look d.new n) (λ v. truth (D.look d.old a.now) v && truth (D.look d.old b.now) v)) }
    ensures knows { IfOk result (λ n. IsFoldedFrom false (D.look d.old a.now) (D.look d.old b.now) (D.look d.new n)) }
{
    match known_truth(d, a) {
        Some(true) => Ok(d.copy(b)?),
        Some(false) => Ok(d.copy(a)?),
        None => {
            match known_truth(d, b) {
                Some(true) => Ok(d.copy(a)?),
                Some(false) => Ok(d.copy(b)?),
                None => Ok(apply_to_two(alloc, d, Op::And, a, b)?),
            }
        }
    }
}

/// A condition that is true exactly where one of two is, or both are. It fails only for want of memory.
pub fn either<D: Domain>(
    alloc: Global,
    d: &mut D,
    a: &D::Node,
    b: &D::Node,
) -> Result<D::Node, NoMemory>
    requires first { IsCondition (D.look d.old a.now) }
    requires second { IsCondition (D.look d.old b.now) }
    ensures extends { Extends (D.look d.old) (D.look d.new) }
    ensures same_variables { D.variables d.new ≡ D.variables d.old }
    ensures means { IfOk result (λ n. IsTruth (D.look d.new n) (λ v. truth (D.look d.old a.now) v || truth (D.look d.old b.now) v)) }
    ensures knows { IfOk result (λ n. IsFoldedFrom true (D.look d.old a.now) (D.look d.old b.now) (D.look d.new n)) }
{
    match known_truth(d, a) {
        Some(true) => Ok(d.copy(a)?),
        Some(false) => Ok(d.copy(b)?),
        None => {
            match known_truth(d, b) {
                Some(true) => Ok(d.copy(b)?),
                Some(false) => Ok(d.copy(a)?),
                None => Ok(apply_to_two(alloc, d, Op::Or, a, b)?),
            }
        }
    }
}

/// A condition that is true exactly where another isn't. It fails only for want of memory.
pub fn negation<D: Domain>(alloc: Global, d: &mut D, a: &D::Node) -> Result<D::Node, NoMemory>
    requires { IsCondition (D.look d.old a.now) }
    ensures extends { Extends (D.look d.old) (D.look d.new) }
    ensures same_variables { D.variables d.new ≡ D.variables d.old }
    ensures means { IfOk result (λ n. IsTruth (D.look d.new n) (λ v. not (truth (D.look d.old a.now) v))) }
    ensures knows { IfOk result (λ n. (b : Bool) → IsKnownAs b (D.look d.old a.now) → IsKnownAs (not b) (D.look d.new n)) }
{
    match known_truth(d, a) {
        Some(b) => Ok(flag(d, !b)?),
        None => Ok(apply_to_one(alloc, d, Op::Not, a)?),
    }
}

/// A condition that is true exactly where two nodes, both truth values or both words of one width, mean the same. It
/// fails only for want of memory.
pub fn equal<D: Domain>(
    alloc: Global,
    d: &mut D,
    a: &D::Node,
    b: &D::Node,
) -> Result<D::Node, NoMemory>
    requires first { IsTrue (D.look d.old a.now).valid }
    requires second { IsTrue (D.look d.old b.now).valid }
    requires scalar { IsTrue (is_scalar_sort (D.look d.old a.now).sort) }
    requires same_sort { (D.look d.old b.now).sort ≡ (D.look d.old a.now).sort }
    ensures extends { Extends (D.look d.old) (D.look d.new) }
    ensures same_variables { D.variables d.new ≡ D.variables d.old }
    ensures means { IfOk result (λ n. IsTruth (D.look d.new n) (mean_same (D.look d.old a.now) (D.look d.old b.now))) }
    ensures knows { IfOk result
        (λ n. (x y : ScalarOf) → (D.look d.old a.now).known ≡ Some x → (D.look d.old b.now).known ≡ Some y →
        IsKnownAs (same_scalar x y) (D.look d.new n)) }
{
    Ok(apply_to_two(alloc, d, Op::Eq, a, b)?)
}

/// A condition that is true exactly where all of a list are. It fails only for want of memory.
pub fn all<D: Domain>(alloc: Global, d: &mut D, conditions: &[D::Node]) -> Result<D::Node, NoMemory>
    requires { All IsCondition (map (D.look d.old) conditions.now) }
    ensures extends { Extends (D.look d.old) (D.look d.new) }
    ensures same_variables { D.variables d.new ≡ D.variables d.old }
    ensures means { IfOk result (λ n. IsTruth (D.look d.new n) (all_true (map (D.look d.old) conditions.now))) }
    ensures knows { IfOk result (λ n. IsAllFoldedFrom (map (D.look d.old) conditions.now) (D.look d.new n)) }
{
    let mut joined = flag(d, true)?;
    for condition in conditions {
        joined = both(alloc, d, &joined, condition)?;
    }
    Ok(joined)
}
