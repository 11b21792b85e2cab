//! Nodes from forms, over any domain with variables.
ghost use Rattle.std.specs.Prelude.{IfOk, IsTrue};
ghost use Rattle.data_value.specs.Nodes.{AllValid, Extends};

use crate::joining::{is_joining, joined};
use data_value::conditions::flag;
use data_value::{Symbolic, is_sort};
use example_cases::{Failed, is_word, list, small};
use formula_text::{applied, constant, variable};
use sexp_text::Form;
use shown_terms::operands;
use std::alloc::Global;

/// Variables of these sorts, behind those that are there.
pub fn declare<D: Symbolic>(d: &mut D, sorts: &[Form]) -> Result<(), Failed> {
    for form in sorts {
        let sort = operands::sort(form)?;
        if !is_sort(sort) {
            return Err(Failed::NoCall);
        }
        d.fresh(sort)?;
    }
    Ok(())
}

/// The nodes that forms are.
pub fn made<D: Symbolic>(alloc: Global, d: &mut D, forms: &[Form]) -> Result<Vec<D::Node>, Failed>
    ensures { IfOk result (λ nodes. AllValid (D.look d.new) nodes.items) }
{
    let mut nodes = Vec::new(alloc);
    for form in forms {
        let node = node(alloc, d, nodes.as_slice(), form)?;
        nodes.push(node)?;
    }
    Ok(nodes)
}

// The node that a form is, behind others.
fn node<D: Symbolic>(
    alloc: Global,
    d: &mut D,
    before: &[D::Node],
    form: &Form,
) -> Result<D::Node, Failed>
    requires { AllValid (D.look d.old) before.now }
    ensures extends { Extends (D.look d.old) (D.look d.new) }
    ensures valid { IfOk result (λ n. IsTrue (D.look d.new n).valid) }
{
    match list(form)? {
        [kind, index] if is_word(kind, b"var") => variable(d, small(index)?),
        [kind, value] if is_word(kind, b"const") => constant(d, &operands::value(alloc, value)?),
        [kind, truth] if is_word(kind, b"flag") => Ok(flag(d, operands::truth(truth)?)?),
        [kind, places @ ..] if is_joining(kind) => {
            let nodes = copies(alloc, d, before, places)?;
            joined(alloc, d, kind, nodes.as_slice())
        }
        [op, places @ ..] => {
            let op = operands::operator(op)?;
            let args = copies(alloc, d, before, places)?;
            applied(alloc, d, op, args.as_slice())
        }
        [] => Err(Failed::NoCall),
    }
}

/// Copies of the nodes at these places.
pub(crate) fn copies<D: Symbolic>(
    alloc: Global,
    d: &D,
    nodes: &[D::Node],
    places: &[Form],
) -> Result<Vec<D::Node>, Failed>
    requires { AllValid (D.look d.now) nodes.now }
    ensures { IfOk result (λ args. AllValid (D.look d.now) args.items) }
{
    let mut args = Vec::new(alloc);
    for place in places {
        args.push(copy_at(d, nodes, small(place)?)?)?;
    }
    Ok(args)
}

/// A copy of the node at a place.
pub(crate) fn copy_at<D: Symbolic>(
    d: &D,
    nodes: &[D::Node],
    place: usize,
) -> Result<D::Node, Failed>
    requires { AllValid (D.look d.now) nodes.now }
    ensures { IfOk result (λ n. IsTrue (D.look d.now n).valid) }
{
    if nodes.len() <= place {
        return Err(Failed::NoCall);
    }
    Ok(d.copy(&nodes[place])?)
}
