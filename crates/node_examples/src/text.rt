//! A node as a text, over any domain with variables.
ghost use Rattle.std.specs.Prelude.{IsTrue};
ghost use Rattle.node_list.specs.Listed.{AreLines};

use data_value::{Symbolic, View};
use example_cases::Failed;
use node_list::{Line, Made, listed};
use shown_terms::{Shown, operator, value};
use std::alloc::{AllocError, Global};

/// A node as the tree that it stands for: a variable as `x` and its index, a value, or an operator and the texts of its arguments.
pub(crate) fn tree_text<D: Symbolic>(alloc: Global, d: &D, node: &D::Node) -> Result<String, Failed>
    requires { IsTrue (D.look d.now node.now).valid }
{
    let lines = listed(alloc, d, node)?;
    let mut texts = line_texts(alloc, d, lines.as_slice())?;
    match texts.pop() {
        Some(last) => Ok(last),
        None => Err(Failed::NoCall),
    }
}

fn line_texts<D: Symbolic>(
    alloc: Global,
    d: &D,
    lines: &[Line<D::Node>],
) -> Result<Vec<String>, Failed>
    requires { AreLines (D.look d.now) lines.now }
{
    let mut texts = Vec::new(alloc);
    for line in lines {
        let text = line_text(alloc, d, texts.as_slice(), line)?;
        texts.push(text)?;
    }
    Ok(texts)
}

// The text of a line, behind those of the lines before it.
fn line_text<D: Symbolic>(
    alloc: Global,
    d: &D,
    texts: &[String],
    line: &Line<D::Node>,
) -> Result<String, Failed>
    requires { IsTrue (D.look d.now line.now.node).valid }
{
    let mut out = Shown::new(alloc);
    match &line.made {
        Made::Leaf => put_leaf(&mut out, d, &line.node)?,
        Made::Apply(op, places) => {
            operator(&mut out, *op)?;
            put_texts(&mut out, texts, places.as_slice())?;
        }
    }
    Ok(out.into_text())
}

fn put_leaf<D: Symbolic>(out: &mut Shown, d: &D, node: &D::Node) -> Result<(), AllocError>
    requires { IsTrue (D.look d.now node.now).valid }
{
    match d.view(node) {
        View::Variable(index) => out.place("x", index),
        View::Constant(known) => value(out, known),
        View::Apply(op, _) => operator(out, op),
    }
}

// The texts at places, each behind a space, and the bracket that ends them.
fn put_texts(out: &mut Shown, texts: &[String], places: &[usize]) -> Result<(), Failed> {
    for place in places {
        match texts.get(*place) {
            Some(text) => {
                out.put(" ")?;
                out.put(text.as_str())?;
            }
            None => return Err(Failed::NoCall),
        }
    }
    Ok(out.put(")")?)
}
