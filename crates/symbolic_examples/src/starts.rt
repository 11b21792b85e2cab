//! Configurations from forms, over any domain with variables.
ghost use Rattle.std.specs.Prelude.{◌≡◌, IfOk, List, Some};
ghost use Rattle.data_value.specs.Nodes.{AllValid};
ghost use Rattle.data_value.specs.Truth.{IsCondition};
ghost use Rattle.sort_term.specs.declared.semantics.Con.{Con};
ghost use Rattle.sort_term.specs.NodeTerms.{seen_term, seen_sort};
ghost use Rattle.unify.specs.Branches.{IsConfiguration};

use data_value::{DataSort, Symbolic, same_sort};
use example_cases::{Failed, list, small};
use node_examples::{declare, made};
use sexp_text::Form;
use sort_term::{ConId, Config, Left, Semantics, Side, Sort, Term};
use sqlite_items::Items;
use std::alloc::Global;

/// Where a run starts.
#[derive(Drop)]
pub struct StartingPoint<N> {
    /// The configuration.
    pub config: Config<Left, N>,
    /// The condition.
    pub condition: N,
}

/// The configuration and the condition that forms are.
pub fn start<D: Symbolic>(
    alloc: Global,
    d: &mut D,
    semantics: &Semantics<Left>,
    form: &Form,
) -> Result<StartingPoint<D::Node>, Failed>
    ensures config { IfOk result (λ s. IsConfiguration semantics.now (seen_term (D.look d.new) s.config.term)) }
    ensures condition { IfOk result (λ s. IsCondition (D.look d.new s.condition)) }
{
    let [sorts, nodes, state, place] = list(form)? else {
        return Err(Failed::NoCall);
    };
    declare(d, list(sorts)?)?;
    let nodes = made(alloc, d, list(nodes)?)?;
    let term = configuration(alloc, d, semantics, nodes.as_slice(), list(state)?)?;
    let condition = condition_at(d, nodes.as_slice(), place)?;
    Ok(StartingPoint {
        config: Config::new(term),
        condition,
    })
}

/// A constructor of the configuration sort at nodes of the sorts that it takes.
pub fn configuration<S: Side, D: Symbolic>(
    alloc: Global,
    d: &D,
    semantics: &Semantics<S>,
    nodes: &[D::Node],
    forms: &[Form],
) -> Result<Term<D::Node>, Failed>
    requires { AllValid (D.look d.now) nodes.now }
    ensures { IfOk result (λ t. IsConfiguration semantics.now (seen_term (D.look d.now) t)) }
{
    let [number, places @ ..] = forms else {
        return Err(Failed::NoCall);
    };
    let id = ConId(small(number)?);
    let cons = semantics.cons().as_slice();
    if cons.len() <= id.0 {
        return Err(Failed::NoCall);
    }
    let con = &cons[id.0];
    let sorts = con.args.as_slice();
    if con.sort.0 != semantics.config().0 || sorts.len() != places.len() {
        return Err(Failed::NoCall);
    }
    let mut parts = Vec::new(alloc);
    for place in 0..sorts.len() {
        parts.push(part(d, nodes, small(&places[place])?, sorts[place])?)?;
    }
    Ok(Term::Con(id, Items::from_vec(parts)))
}

// The node at a place as a term, which has this sort.
fn part<D: Symbolic>(
    d: &D,
    nodes: &[D::Node],
    place: usize,
    sort: Sort,
) -> Result<Term<D::Node>, Failed>
    requires { AllValid (D.look d.now) nodes.now }
    ensures { IfOk result (λ t. (cons : List Con) → seen_sort cons (seen_term (D.look d.now) t) ≡ Some sort) }
{
    if nodes.len() <= place {
        return Err(Failed::NoCall);
    }
    let node = &nodes[place];
    let Sort::Plain(of) = sort else {
        return Err(Failed::NoCall);
    };
    if !same_sort(d.sort(node), of) {
        return Err(Failed::NoCall);
    }
    Ok(Term::Plain(d.copy(node)?))
}

/// The condition at a place.
pub fn condition_at<D: Symbolic>(d: &D, nodes: &[D::Node], place: &Form) -> Result<D::Node, Failed>
    requires { AllValid (D.look d.now) nodes.now }
    ensures { IfOk result (λ n. IsCondition (D.look d.now n)) }
{
    let place = small(place)?;
    if nodes.len() <= place {
        return Err(Failed::NoCall);
    }
    if !same_sort(d.sort(&nodes[place]), DataSort::Bool) {
        return Err(Failed::NoCall);
    }
    Ok(d.copy(&nodes[place])?)
}
