// Tests of keys, and terms of constants.
ghost use Rattle.std.specs.Prelude.{◌≡◌, ◌↔◌, ◌<◌, ◌^◌, ℕ, [], ◌∷◌, IfOk, IsSome, All, map};
ghost use Rattle.data_value.specs.declared.DataSort.TheVariants.{Bits as BitsSort};
ghost use Rattle.data_value.specs.declared.Value.{Value};
ghost use Rattle.data_value.specs.Nodes.{Extends, IsValuation};
ghost use Rattle.data_value.specs.Values.{word_of, scalar_of};
ghost use Rattle.sort_term.specs.declared.term.Term.TheVariants.{Plain};
ghost use Rattle.sort_term.specs.declared.term.Sort.TheVariants.{Plain as DataOf};
ghost use Rattle.sort_term.specs.Sorted.{tree_sort};
ghost use Rattle.sort_term.specs.NodeTerms.{seen_term, node_sort};
ghost use Rattle.unify.specs.Constants.{IsKeyTest, IsTreeTerm, AreTreeTerms};

use data_value::conditions::equal;
use data_value::{Domain, Scalar, Value};
use no_memory::NoMemory;
use sort_term::{Semantics, Side, Term, Terms};
use sqlite_items::Items;
use std::alloc::Global;

/// A node that is true exactly where a word has this number.
pub(crate) fn key_test<D: Domain>(
    alloc: Global,
    d: &mut D,
    key: &D::Node,
    width: u8,
    number: u64,
) -> Result<D::Node, NoMemory>
    requires key { node_sort (D.look d.old key.now) ≡ Some (DataOf (BitsSort width)) }
    requires number { number < 2 ^ width }
    ensures extends { Extends (D.look d.old) (D.look d.new) }
    ensures same_variables { D.variables d.new ≡ D.variables d.old }
    ensures test { IfOk result (λ n. IsKeyTest (D.variables d.old) (D.look d.old key.now) number (D.look d.new n)) }
{
    let literal = d.constant(&Value::One(Scalar::Bits {
        width,
        bits: number,
    }))?;
    Ok(equal(alloc, d, key, &literal)?)
}

/// A term that means a tree under every valuation.
#[cycle(constant_term)]
pub(crate) fn constant_term<S: Side, D: Domain>(
    alloc: Global,
    d: &mut D,
    semantics: &Semantics<S>,
    tree: &Term<Value>,
) -> Result<Term<D::Node>, NoMemory>
    requires { IsSome (tree_sort semantics.now.cons tree.now) }
    ensures extends { Extends (D.look d.old) (D.look d.new) }
    ensures same_variables { D.variables d.new ≡ D.variables d.old }
    ensures term { IfOk result (λ t. IsTreeTerm semantics.now.cons tree.now (seen_term (D.look d.new) t)) }
{
    match tree {
        Term::Con(con, trees) => {
            let terms = constant_terms(alloc, d, semantics, trees.as_slice())?;
            Ok(Term::Con(*con, terms))
        }
        Term::Plain(value) => Ok(Term::Plain(d.constant(value)?)),
    }
}

#[cycle(constant_term)]
fn constant_terms<S: Side, D: Domain>(
    alloc: Global,
    d: &mut D,
    semantics: &Semantics<S>,
    trees: &[Term<Value>],
) -> Result<Terms<D::Node>, NoMemory>
    requires { All (λ t. IsSome (tree_sort semantics.now.cons t)) trees.now }
    ensures extends { Extends (D.look d.old) (D.look d.new) }
    ensures same_variables { D.variables d.new ≡ D.variables d.old }
    ensures terms { IfOk result (λ ts. AreTreeTerms semantics.now.cons trees.now (map (seen_term (D.look d.new)) ts)) }
{
    let mut terms = Items::new(alloc);
    for tree in trees {
        let term = constant_term(alloc, d, semantics, tree)?;
        terms.push(term)?;
    }
    Ok(terms)
}
