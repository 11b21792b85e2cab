//! The nodes that forms are.
ghost use Rattle.std.specs.Prelude.{◌≡◌, IfOk, IsTrue};
ghost use Rattle.data_value.specs.Nodes.{AllValid, Extends};

use crate::names::{Names, index_of};
use crate::nodes::{applied, constant, variable};
use data_value::Symbolic;
use example_cases::{Failed, is_word};
use sexp_text::{Form, FormKind};
use shown_terms::operands;
use std::alloc::Global;

/// The node that a form is. Variables that it names first are declared.
#[cycle(formula)]
pub fn formula<D: Symbolic>(
    alloc: Global,
    d: &mut D,
    names: &mut Names,
    form: &Form,
) -> Result<D::Node, Failed>
    ensures extends { Extends (D.look d.old) (D.look d.new) }
    ensures valid { IfOk result (λ n. IsTrue (D.look d.new n).valid) }
{
    if is_constant(form) {
        return constant(d, &operands::value(alloc, form)?);
    }
    match &form.kind {
        FormKind::Word(name) => {
            let index = index_of(alloc, d, names, name.as_slice())?;
            variable(d, index)
        }
        FormKind::List(parts) => match parts.as_slice() {
            [op, args @ ..] => {
                let op = operands::operator(op)?;
                let args = formulas(alloc, d, names, args)?;
                applied(alloc, d, op, args.as_slice())
            }
            [] => Err(Failed::NoCall),
        },
        FormKind::Number(_) => Err(Failed::NoCall),
    }
}

#[cycle(formula)]
fn formulas<D: Symbolic>(
    alloc: Global,
    d: &mut D,
    names: &mut Names,
    forms: &[Form],
) -> Result<Vec<D::Node>, Failed>
    ensures extends { Extends (D.look d.old) (D.look d.new) }
    ensures valid { IfOk result (λ nodes. AllValid (D.look d.new) nodes.items) }
{
    let mut nodes = Vec::new(alloc);
    for form in forms {
        let node = formula(alloc, d, names, form)?;
        nodes.push(node)?;
    }
    Ok(nodes)
}

// Whether a form is a truth value, a word with its width, or a map.
fn is_constant(form: &Form) -> bool {
    match &form.kind {
        FormKind::Word(_) => is_word(form, b"true") || is_word(form, b"false"),
        FormKind::List(parts) => match parts.as_slice() {
            [head, ..] => is_number(head) || is_word(head, b"map"),
            [] => false,
        },
        FormKind::Number(_) => false,
    }
}

fn is_number(form: &Form) -> bool {
    matches!(form.kind, FormKind::Number(_))
}
