//! Conditions of nodes, over any domain with variables.
ghost use Rattle.std.specs.Prelude.{◌≡◌, All, IfOk, IsTrue, map};
ghost use Rattle.data_value.specs.Nodes.{AllValid, Extends};
ghost use Rattle.data_value.specs.Truth.{IsCondition};

use data_value::conditions::{all, both, either, equal, negation};
use data_value::{DataSort, Symbolic, same_sort};
use example_cases::{Failed, is_word};
use sexp_text::Form;
use std::alloc::Global;

/// Whether a word names a call that joins conditions, or makes one of nodes.
pub(crate) fn is_joining(kind: &Form) -> bool {
    let kinds: [&[u8]; 5] = [b"negation", b"both", b"either", b"equal", b"all"];
    kinds.iter().any(|word| is_word(kind, word))
}

/// The condition that a call with this name makes of nodes.
pub(crate) fn joined<D: Symbolic>(
    alloc: Global,
    d: &mut D,
    kind: &Form,
    nodes: &[D::Node],
) -> Result<D::Node, Failed>
    requires { AllValid (D.look d.old) nodes.now }
    ensures extends { Extends (D.look d.old) (D.look d.new) }
    ensures valid { IfOk result (λ n. IsTrue (D.look d.new n).valid) }
{
    match nodes {
        _ if is_word(kind, b"all") => of_all(alloc, d, nodes),
        [a] if is_word(kind, b"negation") => of_one(alloc, d, a),
        [a, b] if is_word(kind, b"equal") => compared(alloc, d, a, b),
        [a, b] => of_two(alloc, d, kind, a, b),
        _ => Err(Failed::NoCall),
    }
}

fn of_all<D: Symbolic>(alloc: Global, d: &mut D, nodes: &[D::Node]) -> Result<D::Node, Failed>
    requires { AllValid (D.look d.old) nodes.now }
    ensures extends { Extends (D.look d.old) (D.look d.new) }
    ensures valid { IfOk result (λ n. IsTrue (D.look d.new n).valid) }
{
    for node in nodes {
        if !is_condition(d, node) {
            return Err(Failed::NoCall);
        }
    }
    Ok(all(alloc, d, nodes)?)
}

fn of_one<D: Symbolic>(alloc: Global, d: &mut D, a: &D::Node) -> Result<D::Node, Failed>
    requires { IsTrue (D.look d.old a.now).valid }
    ensures extends { Extends (D.look d.old) (D.look d.new) }
    ensures valid { IfOk result (λ n. IsTrue (D.look d.new n).valid) }
{
    if !is_condition(d, a) {
        return Err(Failed::NoCall);
    }
    Ok(negation(alloc, d, a)?)
}

fn of_two<D: Symbolic>(
    alloc: Global,
    d: &mut D,
    kind: &Form,
    a: &D::Node,
    b: &D::Node,
) -> Result<D::Node, Failed>
    requires first { IsTrue (D.look d.old a.now).valid }
    requires second { IsTrue (D.look d.old b.now).valid }
    ensures extends { Extends (D.look d.old) (D.look d.new) }
    ensures valid { IfOk result (λ n. IsTrue (D.look d.new n).valid) }
{
    if !is_condition(d, a) || !is_condition(d, b) {
        return Err(Failed::NoCall);
    }
    if is_word(kind, b"both") {
        return Ok(both(alloc, d, a, b)?);
    }
    if is_word(kind, b"either") {
        return Ok(either(alloc, d, a, b)?);
    }
    Err(Failed::NoCall)
}

fn compared<D: Symbolic>(
    alloc: Global,
    d: &mut D,
    a: &D::Node,
    b: &D::Node,
) -> Result<D::Node, Failed>
    requires first { IsTrue (D.look d.old a.now).valid }
    requires second { IsTrue (D.look d.old b.now).valid }
    ensures extends { Extends (D.look d.old) (D.look d.new) }
    ensures valid { IfOk result (λ n. IsTrue (D.look d.new n).valid) }
{
    let sort = d.sort(a);
    if matches!(sort, DataSort::Map(..)) || !same_sort(d.sort(b), sort) {
        return Err(Failed::NoCall);
    }
    Ok(equal(alloc, d, a, b)?)
}

fn is_condition<D: Symbolic>(d: &D, node: &D::Node) -> bool
    requires { IsTrue (D.look d.now node.now).valid }
    ensures { IsTrue result → IsCondition (D.look d.now node.now) }
{
    same_sort(d.sort(node), DataSort::Bool)
}
