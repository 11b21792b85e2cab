//! That no case holds.
ghost use Rattle.std.specs.Prelude.{◌≡◌, ◌↔◌, List, All, Any, IfOk, IsTrue, true, false};
ghost use Rattle.data_value.specs.declared.Value.{Value};
ghost use Rattle.data_value.specs.Nodes.{Extends};
ghost use Rattle.data_value.specs.Truth.{IsCondition, IsKnownAs, truth};
ghost use Rattle.data_value.specs.Views.{BeginsWith};
ghost use Rattle.probe_keys.specs.Cases.{seen_pairs, AreMaps, AreSame, seen_case, seen_cases, IsCase, HoldsAt};
ghost use Rattle.probe_keys.specs.Probed.{IsProbed};

use crate::case::{Case, MapPair};
use crate::differ::differ;
use data_value::conditions::{both, either, known_truth, negation};
use data_value::{Domain, Symbolic};
use no_memory::NoMemory;
use std::alloc::Global;

/// A formula that says that a condition is true and no case holds. It has one fresh variable, a probe key, for each pair of maps of each
/// case whose test isn't known to be false. The condition and the tests are nodes of sort bool, the pairs are of nodes of one map sort each.
///
/// Where it is true, whatever the values of the probe keys, the condition is true and no case holds. Where the condition is true, some
/// case holds or some values of the probe keys make it true. The only error is want of memory.
pub fn no_case<D: Symbolic>(
    alloc: Global,
    d: &mut D,
    condition: &D::Node,
    cases: &[Case<D::Node>],
) -> Result<D::Node, NoMemory>
    requires condition { IsCondition (D.look d.old condition.now) }
    requires cases { All IsCase (seen_cases (D.look d.old) cases.now) }
    ensures extends { Extends (D.look d.old) (D.look d.new) }
    ensures begins { BeginsWith (D.variables d.new) (D.variables d.old) }
    ensures none { IfOk result
        (λ n. IsProbed (D.variables d.old) (D.variables d.new) (truth (D.look d.old condition.now))
        (λ v. Any (HoldsAt v) (seen_cases (D.look d.old) cases.now)) (D.look d.new n)) }
{
    let mut formula = d.copy(condition)?;
    for case in cases {
        let excluded = excluded(alloc, d, case)?;
        formula = both(alloc, d, &formula, &excluded)?;
    }
    Ok(formula)
}

// A formula that says that a case doesn't hold: its test is false, or the maps of some pair aren't equal. Where the test is known to be
// false, it needs no probe key.
fn excluded<D: Symbolic>(
    alloc: Global,
    d: &mut D,
    case: &Case<D::Node>,
) -> Result<D::Node, NoMemory>
    requires { IsCase (seen_case (D.look d.old) case.now) }
    ensures extends { Extends (D.look d.old) (D.look d.new) }
    ensures begins { BeginsWith (D.variables d.new) (D.variables d.old) }
    ensures excluded { IfOk result
        (λ n. IsProbed (D.variables d.old) (D.variables d.new) (λ v. true)
        (λ v. HoldsAt v (seen_case (D.look d.old) case.now)) (D.look d.new n)) }
{
    let untested = negation(alloc, d, &case.test)?;
    if is_known_true(d, &untested) {
        return Ok(untested);
    }
    Ok(some_differ(alloc, d, untested, case.maps.as_slice())?)
}

// Whether a condition is known to be true under every valuation.
fn is_known_true<D: Domain>(d: &D, condition: &D::Node) -> bool
    requires { IsCondition (D.look d.now condition.now) }
    ensures known { IsTrue result ↔ IsKnownAs true (D.look d.now condition.now) }
    ensures means { IsTrue result → (v : List Value) → truth (D.look d.now condition.now) v ≡ true }
{
    known_truth(d, condition) == Some(true)
}

// A formula that says that a condition is true or the maps of some pair aren't equal.
fn some_differ<D: Symbolic>(
    alloc: Global,
    d: &mut D,
    first: D::Node,
    pairs: &[MapPair<D::Node>],
) -> Result<D::Node, NoMemory>
    requires first { IsCondition (D.look d.old first) }
    requires pairs { All AreMaps (seen_pairs (D.look d.old) pairs.now) }
    ensures extends { Extends (D.look d.old) (D.look d.new) }
    ensures begins { BeginsWith (D.variables d.new) (D.variables d.old) }
    ensures some { IfOk result
        (λ n. IsProbed (D.variables d.old) (D.variables d.new) (λ v. true)
        (λ v. (truth (D.look d.old first) v ≡ false) × All (AreSame v) (seen_pairs (D.look d.old) pairs.now)) (D.look d.new n)) }
{
    let mut joined = first;
    for pair in pairs {
        let differs = differ(alloc, d, pair)?;
        joined = either(alloc, d, &joined, &differs)?;
    }
    Ok(joined)
}
