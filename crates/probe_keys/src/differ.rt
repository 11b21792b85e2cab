// That two maps aren't equal.
ghost use Rattle.std.specs.Prelude.{◌≡◌, ℕ, [], ◌∷◌, ◌++◌, length, false, true, IfOk, OnOk, IsTrue, IsSome};
ghost use Rattle.data_value.specs.declared.DataSort.TheVariants.{Bits as BitsSort, Map as MapSort};
ghost use Rattle.data_value.specs.declared.Op.TheVariants.{Get};
ghost use Rattle.data_value.specs.Sorts.{IsWidth, is_scalar_sort, op_sort};
ghost use Rattle.data_value.specs.Nodes.{Extends, IsApplied, sorts_of};
ghost use Rattle.data_value.specs.Views.{BeginsWith, IsVariable};
ghost use Rattle.probe_keys.specs.Cases.{seen_pair, AreMaps, AreSame};
ghost use Rattle.probe_keys.specs.Probed.{IsProbed};

use crate::case::MapPair;
use data_value::conditions::{equal, negation};
use data_value::{DataSort, Domain, Op, Symbolic};
use no_memory::NoMemory;
use std::alloc::Global;

/// A formula that says of two maps that they have different words at a key, for which it has a fresh variable, the probe key. Some
/// probe key makes it true exactly where the maps aren't equal.
pub(crate) fn differ<D: Symbolic>(
    alloc: Global,
    d: &mut D,
    pair: &MapPair<D::Node>,
) -> Result<D::Node, NoMemory>
    requires { AreMaps (seen_pair (D.look d.old) pair.now) }
    ensures extends { Extends (D.look d.old) (D.look d.new) }
    ensures begins { BeginsWith (D.variables d.new) (D.variables d.old) }
    ensures differ { IfOk result
        (λ n. IsProbed (D.variables d.old) (D.variables d.new) (λ v. true)
        (λ v. AreSame v (seen_pair (D.look d.old) pair.now)) (D.look d.new n)) }
{
    let width = key_width(d, &pair.left);
    let key = fresh_key(d, width)?;
    let left = word_at(alloc, d, &pair.left, &key)?;
    let right = word_at(alloc, d, &pair.right, &key)?;
    let same = equal(alloc, d, &left, &right)?;
    Ok(negation(alloc, d, &same)?)
}

// The width of a map's keys.
fn key_width<D: Domain>(d: &D, map: &D::Node) -> u8
    requires valid { IsTrue (D.look d.now map.now).valid }
    requires map { is_scalar_sort (D.look d.now map.now).sort ≡ false }
    ensures { (words : ℕ) × ((D.look d.now map.now).sort ≡ MapSort result words) }
{
    match d.sort(map) {
        DataSort::Map(keys, _) => keys,
        _ => unreachable!(),
    }
}

// A fresh variable for a word of this width.
fn fresh_key<D: Symbolic>(d: &mut D, width: u8) -> Result<D::Node, NoMemory>
    requires { IsWidth width }
    ensures extends { Extends (D.look d.old) (D.look d.new) }
    ensures begins { BeginsWith (D.variables d.new) (D.variables d.old) }
    ensures appended { OnOk result (D.variables d.new ≡ D.variables d.old ++ BitsSort width ∷ []) }
    ensures key { IfOk result (λ n. IsVariable (D.look d.new) (D.variables d.new) (length (D.variables d.old)) n) }
{
    let index = d.fresh(DataSort::Bits(width))?;
    Ok(d.variable(index)?)
}

// The word of a map at a key.
fn word_at<D: Domain>(
    alloc: Global,
    d: &mut D,
    map: &D::Node,
    key: &D::Node,
) -> Result<D::Node, NoMemory>
    requires map { IsTrue (D.look d.old map.now).valid }
    requires key { IsTrue (D.look d.old key.now).valid }
    requires sorted { IsSome (op_sort Get (sorts_of (D.look d.old) (map.now ∷ key.now ∷ []))) }
    ensures extends { Extends (D.look d.old) (D.look d.new) }
    ensures same_variables { D.variables d.new ≡ D.variables d.old }
    ensures word { IfOk result (λ n. IsApplied (D.look d.old) (D.look d.new) Get (map.now ∷ key.now ∷ []) n) }
{
    let mut args = Vec::new(alloc);
    args.push(d.copy(map)?)?;
    args.push(d.copy(key)?)?;
    Ok(d.apply(Op::Get, args.as_slice())?)
}
