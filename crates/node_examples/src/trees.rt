//! What is asked of trees.
ghost use Rattle.std.specs.Prelude.{◌≡◌, IfOk, map, true};
ghost use Rattle.std.specs.List.{list_all};
ghost use Rattle.data_value.specs.Nodes.{AllValid};
ghost use Rattle.expr_tree.specs.Trees.{expr_sort, judged, tree_look};

use crate::agreement::Meaning;
use crate::text::tree_text;
use crate::valuations::valuation;
use crate::{asked, making, simpler};
use data_value::{DataSort, Domain, Symbolic, Valuation, Value, same_sort};
use example_cases::{Failed, is_word, list, small};
use expr_tree::{Expr, Exprs, Trees, substitute, value};
use sexp_text::Form;
use shown_terms::{Shown, value as put_value};
use sqlite_items::Items;
use std::alloc::Global;

/// What trees over these variables answer.
pub(crate) fn answer(
    alloc: Global,
    sorts: &[Form],
    forms: &[Form],
    ask: &[Form],
) -> Result<String, Failed> {
    let mut trees = Trees::new(alloc);
    making::declare(&mut trees, sorts)?;
    let nodes = making::made(alloc, &mut trees, forms)?;
    match asked::answer(alloc, &trees, nodes.as_slice(), ask)? {
        Some(answer) => Ok(answer),
        None => {
            if simpler::is_asked(ask) {
                simpler::answer(alloc, &mut trees, nodes.as_slice(), ask)
            } else {
                of_one(alloc, &trees, nodes.as_slice(), ask)
            }
        }
    }
}

impl Meaning for Trees {
    fn meaning(&self, alloc: Global, node: &Expr, valuation: &Valuation) -> Result<Value, Failed> {
        Ok(value(alloc, node, valuation)?)
    }
}

// What is asked of one tree.
fn of_one(alloc: Global, trees: &Trees, nodes: &[Expr], ask: &[Form]) -> Result<String, Failed>
    requires { AllValid (tree_look trees.now.variables.items) nodes.now }
{
    let [kind, place, forms @ ..] = ask else {
        return Err(Failed::NoCall);
    };
    let place = small(place)?;
    if nodes.len() <= place {
        return Err(Failed::NoCall);
    }
    if is_word(kind, b"value") {
        return meaning(alloc, trees, &nodes[place], forms);
    }
    if is_word(kind, b"substitute") {
        let other = replaced(alloc, trees, nodes, &nodes[place], forms)?;
        return tree_text(alloc, trees, &other);
    }
    if is_word(kind, b"substituted") {
        return meaning_replaced(alloc, trees, nodes, &nodes[place], forms);
    }
    Err(Failed::NoCall)
}

fn meaning(alloc: Global, trees: &Trees, tree: &Expr, forms: &[Form]) -> Result<String, Failed>
    requires { (judged trees.now.variables.items tree.now).0 ≡ true }
{
    let valuation = valuation(alloc, trees.sorts(), forms)?;
    let mut out = Shown::new(alloc);
    put_value(&mut out, &value(alloc, tree, &valuation)?)?;
    Ok(out.into_text())
}

// A tree with others in the place of its variables.
fn replaced(
    alloc: Global,
    trees: &Trees,
    nodes: &[Expr],
    tree: &Expr,
    forms: &[Form],
) -> Result<Expr, Failed>
    requires nodes { AllValid (tree_look trees.now.variables.items) nodes.now }
    requires tree { (judged trees.now.variables.items tree.now).0 ≡ true }
    ensures { IfOk result (λ other. (judged trees.now.variables.items other).0 ≡ true) }
{
    let by = in_place(alloc, trees, nodes, forms)?;
    Ok(substitute(alloc, tree, &by)?)
}

// What a tree means with others in the place of its variables.
fn meaning_replaced(
    alloc: Global,
    trees: &Trees,
    nodes: &[Expr],
    tree: &Expr,
    forms: &[Form],
) -> Result<String, Failed>
    requires nodes { AllValid (tree_look trees.now.variables.items) nodes.now }
    requires tree { (judged trees.now.variables.items tree.now).0 ≡ true }
{
    let [places, values @ ..] = forms else {
        return Err(Failed::NoCall);
    };
    let other = replaced(alloc, trees, nodes, tree, list(places)?)?;
    meaning(alloc, trees, &other, values)
}

// The trees at these places, one of the sort of each variable.
fn in_place(alloc: Global, trees: &Trees, nodes: &[Expr], forms: &[Form]) -> Result<Exprs, Failed>
    requires { AllValid (tree_look trees.now.variables.items) nodes.now }
    ensures sorts { IfOk result (λ by. map expr_sort by ≡ trees.now.variables.items) }
    ensures valid { IfOk result (λ by. list_all (λ p. p.0) (map (judged trees.now.variables.items) by) ≡ true) }
{
    let sorts = trees.sorts();
    if sorts.len() != forms.len() {
        return Err(Failed::NoCall);
    }
    let mut by = Items::new(alloc);
    for place in 0..sorts.len() {
        by.push(of_sort(trees, nodes, small(&forms[place])?, sorts[place])?)?;
    }
    Ok(by)
}

// A copy of the tree at a place, which has this sort.
fn of_sort(trees: &Trees, nodes: &[Expr], place: usize, sort: DataSort) -> Result<Expr, Failed>
    requires { AllValid (tree_look trees.now.variables.items) nodes.now }
    ensures sort { IfOk result (λ tree. expr_sort tree ≡ sort) }
    ensures valid { IfOk result (λ tree. (judged trees.now.variables.items tree).0 ≡ true) }
{
    if nodes.len() <= place {
        return Err(Failed::NoCall);
    }
    let tree = &nodes[place];
    if !same_sort(trees.sort(tree), sort) {
        return Err(Failed::NoCall);
    }
    Ok(trees.copy(tree)?)
}
