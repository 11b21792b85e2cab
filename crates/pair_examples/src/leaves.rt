//! Leaves from forms, of either side.
ghost use Rattle.std.specs.Prelude.{All, IfOk};
ghost use Rattle.data_value.specs.Nodes.{AllValid};
ghost use Rattle.path_condition.specs.Leaves.{IsLeaf, seen_leaf, seen_leaves};

use data_value::Symbolic;
use example_cases::{Failed, list};
use path_condition::{Leaf, Leaves};
use sexp_text::Form;
use sort_term::{Config, Semantics, Side};
use sqlite_items::Items;
use std::alloc::Global;
use symbolic_examples::{condition_at, configuration};

/// The leaf that a form is, by no rules.
pub(crate) fn leaf<S: Side, D: Symbolic>(
    alloc: Global,
    d: &D,
    semantics: &Semantics<S>,
    nodes: &[D::Node],
    form: &Form,
) -> Result<Leaf<S, D::Node>, Failed>
    requires { AllValid (D.look d.now) nodes.now }
    ensures { IfOk result (λ l. IsLeaf semantics.now (seen_leaf (D.look d.now) l)) }
{
    let [place, state @ ..] = list(form)? else {
        return Err(Failed::NoCall);
    };
    let condition = condition_at(d, nodes, place)?;
    let term = configuration(alloc, d, semantics, nodes, state)?;
    Ok(Leaf {
        config: Config::new(term),
        condition,
        rules: Items::new(alloc),
    })
}

/// The leaves that forms are.
pub(crate) fn leaves<S: Side, D: Symbolic>(
    alloc: Global,
    d: &D,
    semantics: &Semantics<S>,
    nodes: &[D::Node],
    forms: &[Form],
) -> Result<Leaves<S, D::Node>, Failed>
    requires { AllValid (D.look d.now) nodes.now }
    ensures { IfOk result (λ ls. All (IsLeaf semantics.now) (seen_leaves (D.look d.now) ls)) }
{
    let mut leaves = Items::new(alloc);
    for form in forms {
        leaves.push(leaf(alloc, d, semantics, nodes, form)?)?;
    }
    Ok(leaves)
}
