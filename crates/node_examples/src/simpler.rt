//! What nodes are simplified to, and what they are with others in the place of some, over any domain with variables.
ghost use Rattle.std.specs.Prelude.{All, IfOk, IsTrue};
ghost use Rattle.data_value.specs.Nodes.{AllValid};
ghost use Rattle.simplify.specs.Pairs.{seen_pair, seen_pairs, IsPair};

use crate::agreement::{Meaning, agreement};
use crate::making::copy_at;
use crate::text::tree_text;
use data_value::{Symbolic, same_sort};
use example_cases::{Failed, is_word, list, small};
use sexp_text::Form;
use simplify::{Pair, replaced, simplify};
use std::alloc::Global;

/// Whether something of this kind is asked.
pub(crate) fn is_asked(ask: &[Form]) -> bool {
    let kinds: [&[u8]; 3] = [b"simplify", b"agrees", b"replaced"];
    match ask {
        [kind, ..] => kinds.iter().any(|word| is_word(kind, word)),
        [] => false,
    }
}

/// What is answered.
pub(crate) fn answer<D: Meaning>(
    alloc: Global,
    d: &mut D,
    nodes: &[D::Node],
    ask: &[Form],
) -> Result<String, Failed>
    requires { AllValid (D.look d.old) nodes.now }
{
    let [kind, place, pairs @ ..] = ask else {
        return Err(Failed::NoCall);
    };
    let place = small(place)?;
    if nodes.len() <= place {
        return Err(Failed::NoCall);
    }
    if is_word(kind, b"replaced") {
        of_pairs(alloc, d, nodes, &nodes[place], pairs)
    } else {
        of_node(alloc, d, &nodes[place], kind)
    }
}

// The simplified node, or whether it means what the node does.
fn of_node<D: Meaning>(
    alloc: Global,
    d: &mut D,
    node: &D::Node,
    kind: &Form,
) -> Result<String, Failed>
    requires { IsTrue (D.look d.old node.now).valid }
{
    let simple = simplify(alloc, d, node)?;
    if is_word(kind, b"agrees") {
        agreement(alloc, d, node, &simple)
    } else {
        tree_text(alloc, d, &simple)
    }
}

fn of_pairs<D: Symbolic>(
    alloc: Global,
    d: &mut D,
    nodes: &[D::Node],
    node: &D::Node,
    forms: &[Form],
) -> Result<String, Failed>
    requires nodes { AllValid (D.look d.old) nodes.now }
    requires node { IsTrue (D.look d.old node.now).valid }
{
    let pairs = pairs_of(alloc, d, nodes, forms)?;
    let other = replaced(alloc, d, node, pairs.as_slice())?;
    tree_text(alloc, d, &other)
}

fn pairs_of<D: Symbolic>(
    alloc: Global,
    d: &D,
    nodes: &[D::Node],
    forms: &[Form],
) -> Result<Vec<Pair<D::Node>>, Failed>
    requires { AllValid (D.look d.now) nodes.now }
    ensures { IfOk result (λ pairs. All IsPair (seen_pairs (D.look d.now) pairs.items)) }
{
    let mut pairs = Vec::new(alloc);
    for form in forms {
        pairs.push(pair(d, nodes, form)?)?;
    }
    Ok(pairs)
}

// Copies of the nodes at two places, which are of one sort.
fn pair<D: Symbolic>(d: &D, nodes: &[D::Node], form: &Form) -> Result<Pair<D::Node>, Failed>
    requires { AllValid (D.look d.now) nodes.now }
    ensures { IfOk result (λ pair. IsPair (seen_pair (D.look d.now) pair)) }
{
    match list(form)? {
        [first, second] => {
            let first = copy_at(d, nodes, small(first)?)?;
            let second = copy_at(d, nodes, small(second)?)?;
            if same_sort(d.sort(&second), d.sort(&first)) {
                Ok(Pair { first, second })
            } else {
                Err(Failed::NoCall)
            }
        }
        _ => Err(Failed::NoCall),
    }
}
