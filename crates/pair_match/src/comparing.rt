// Where the value of a term is what a configuration means.
ghost use Rattle.std.specs.Prelude.{◌≡◌, OnOk, IsSome, All, map};
ghost use Rattle.data_value.specs.Nodes.{Extends};
ghost use Rattle.sort_term.specs.Tree.{value};
ghost use Rattle.sort_term.specs.Sorted.{expr_sort_where};
ghost use Rattle.sort_term.specs.NodeTerms.{seen_term, seen_sort, tree_of};
ghost use Rattle.unify.specs.Binds.{seen_binds, bound_sort};
ghost use Rattle.pair_match.specs.Clash.{ClashSomewhere, ClashAnywhere};
ghost use Rattle.pair_match.specs.Sameness.{seen_sameness, IsSameness, AddsWhere};
ghost use Rattle.pair_match.specs.Bound.{AreNodes, IsData};

use crate::sameness::{Sameness, equate};
use data_value::Symbolic;
use no_memory::NoMemory;
use sort_term::{RuleExpr, Semantics, Side, Term};
use std::alloc::Global;
use unify::{Binds, evaluate};

/// Adds what has to be true for the value of a term, in which each variable has the value that its node means, to be what a
/// configuration means. No constructor of the term stands against another one.
#[cycle(compare)]
pub(crate) fn compare<S: Side, D: Symbolic>(
    alloc: Global,
    d: &mut D,
    semantics: &Semantics<S>,
    term: &RuleExpr,
    config: &Term<D::Node>,
    binds: &Binds<D::Node>,
    sameness: &mut Sameness<D::Node>,
) -> Result<(), NoMemory>
    requires binds { AreNodes (seen_binds (D.look d.old) binds.now) }
    requires term { IsSome
        (expr_sort_where semantics.now.cons (bound_sort semantics.now.cons (seen_binds (D.look d.old) binds.now)) term.now) }
    requires config { seen_sort semantics.now.cons (seen_term (D.look d.old) config.now)
        ≡ expr_sort_where semantics.now.cons (bound_sort semantics.now.cons (seen_binds (D.look d.old) binds.now)) term.now }
    requires clear { ¬ ClashSomewhere term.now (seen_term (D.look d.old) config.now) }
    requires sameness { IsSameness (seen_sameness (D.look d.old) sameness.old) }
    ensures extends { Extends (D.look d.old) (D.look d.new) }
    ensures same_variables { D.variables d.new ≡ D.variables d.old }
    ensures compared { OnOk result
        (AddsWhere (D.variables d.old) (seen_binds (D.look d.old) binds.now)
        (seen_sameness (D.look d.old) sameness.old) (seen_sameness (D.look d.new) sameness.new)
        (λ v w. value w term.now ≡ tree_of v (seen_term (D.look d.old) config.now))) }
{
    match term {
        RuleExpr::Con(_, terms) => match config {
            Term::Con(_, configs) => Ok(compare_all(
                alloc,
                d,
                semantics,
                terms.as_slice(),
                configs.as_slice(),
                binds,
                sameness,
            )?),
            Term::Plain(_) => unreachable!(),
        },
        _ => Ok(compare_node(alloc, d, semantics, term, config, binds, sameness)?),
    }
}

// The same of several terms and as many configurations, place by place.
#[cycle(compare)]
fn compare_all<S: Side, D: Symbolic>(
    alloc: Global,
    d: &mut D,
    semantics: &Semantics<S>,
    terms: &[RuleExpr],
    configs: &[Term<D::Node>],
    binds: &Binds<D::Node>,
    sameness: &mut Sameness<D::Node>,
) -> Result<(), NoMemory>
    requires binds { AreNodes (seen_binds (D.look d.old) binds.now) }
    requires terms { All
        (λ e. IsSome (expr_sort_where semantics.now.cons (bound_sort semantics.now.cons (seen_binds (D.look d.old) binds.now)) e))
        terms.now }
    requires configs { map (seen_sort semantics.now.cons) (map (seen_term (D.look d.old)) configs.now)
        ≡ map (expr_sort_where semantics.now.cons (bound_sort semantics.now.cons (seen_binds (D.look d.old) binds.now))) terms.now }
    requires clear { ¬ ClashAnywhere terms.now (map (seen_term (D.look d.old)) configs.now) }
    requires sameness { IsSameness (seen_sameness (D.look d.old) sameness.old) }
    ensures extends { Extends (D.look d.old) (D.look d.new) }
    ensures same_variables { D.variables d.new ≡ D.variables d.old }
    ensures compared { OnOk result
        (AddsWhere (D.variables d.old) (seen_binds (D.look d.old) binds.now)
        (seen_sameness (D.look d.old) sameness.old) (seen_sameness (D.look d.new) sameness.new)
        (λ v w. map (value w) terms.now ≡ map (tree_of v) (map (seen_term (D.look d.old)) configs.now))) }
{
    for i in 0..terms.len() {
        compare(alloc, d, semantics, &terms[i], &configs[i], binds, sameness)?;
    }
    Ok(())
}

// The same of a term of a sort of data, which is computed, and a configuration that is a node of that sort.
fn compare_node<S: Side, D: Symbolic>(
    alloc: Global,
    d: &mut D,
    semantics: &Semantics<S>,
    term: &RuleExpr,
    config: &Term<D::Node>,
    binds: &Binds<D::Node>,
    sameness: &mut Sameness<D::Node>,
) -> Result<(), NoMemory>
    requires binds { AreNodes (seen_binds (D.look d.old) binds.now) }
    requires term { IsData
        (expr_sort_where semantics.now.cons (bound_sort semantics.now.cons (seen_binds (D.look d.old) binds.now)) term.now) }
    requires config { seen_sort semantics.now.cons (seen_term (D.look d.old) config.now)
        ≡ expr_sort_where semantics.now.cons (bound_sort semantics.now.cons (seen_binds (D.look d.old) binds.now)) term.now }
    requires sameness { IsSameness (seen_sameness (D.look d.old) sameness.old) }
    ensures extends { Extends (D.look d.old) (D.look d.new) }
    ensures same_variables { D.variables d.new ≡ D.variables d.old }
    ensures compared { OnOk result
        (AddsWhere (D.variables d.old) (seen_binds (D.look d.old) binds.now)
        (seen_sameness (D.look d.old) sameness.old) (seen_sameness (D.look d.new) sameness.new)
        (λ v w. value w term.now ≡ tree_of v (seen_term (D.look d.old) config.now))) }
{
    match evaluate(alloc, d, semantics, term, binds)? {
        Term::Plain(node) => match config {
            Term::Plain(found) => Ok(equate(alloc, d, node, found, sameness)?),
            Term::Con(..) => unreachable!(),
        },
        Term::Con(..) => unreachable!(),
    }
}
