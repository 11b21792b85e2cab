//! What is asked of a node, over any domain with variables.
ghost use Rattle.std.specs.Prelude.{IsTrue};
ghost use Rattle.data_value.specs.Nodes.{AllValid};
ghost use Rattle.node_list.specs.Listed.{AreLines};

use data_value::{Symbolic, View};
use example_cases::{Failed, is_word, small};
use node_list::{Line, Made, listed};
use sexp_text::Form;
use shown_terms::{Shown, operator, scalar, sort, value};
use sort_term::Sort;
use std::alloc::{AllocError, Global};

/// What is answered; None where nothing of this kind is asked.
pub(crate) fn answer<D: Symbolic>(
    alloc: Global,
    d: &D,
    nodes: &[D::Node],
    ask: &[Form],
) -> Result<Option<String>, Failed>
    requires { AllValid (D.look d.now) nodes.now }
{
    let [kind, place] = ask else {
        return Ok(None);
    };
    if !is_asked(kind) {
        return Ok(None);
    }
    let place = small(place)?;
    if nodes.len() <= place {
        return Err(Failed::NoCall);
    }
    Ok(Some(told(alloc, d, &nodes[place], kind)?))
}

fn is_asked(kind: &Form) -> bool {
    let kinds: [&[u8]; 6] = [b"sort", b"known", b"copy", b"id", b"shows", b"list"];
    kinds.iter().any(|word| is_word(kind, word))
}

fn told<D: Symbolic>(alloc: Global, d: &D, node: &D::Node, kind: &Form) -> Result<String, Failed>
    requires { IsTrue (D.look d.now node.now).valid }
{
    let mut out = Shown::new(alloc);
    if is_word(kind, b"sort") {
        sort(&mut out, Sort::Plain(d.sort(node)))?;
    } else if is_word(kind, b"known") {
        put_known(&mut out, d, node)?;
    } else if is_word(kind, b"copy") {
        put_copy(&mut out, d, node)?;
    } else if is_word(kind, b"id") {
        put_id(&mut out, d, node)?;
    } else if is_word(kind, b"list") {
        put_list(alloc, &mut out, d, node)?;
    } else {
        put_shown(&mut out, d, node)?;
    }
    Ok(out.into_text())
}

fn put_known<D: Symbolic>(out: &mut Shown, d: &D, node: &D::Node) -> Result<(), AllocError>
    requires { IsTrue (D.look d.now node.now).valid }
{
    match d.known(node) {
        Some(known) => scalar(out, known),
        None => out.put("none"),
    }
}

// What a copy of the node shows and is known as.
fn put_copy<D: Symbolic>(out: &mut Shown, d: &D, node: &D::Node) -> Result<(), Failed>
    requires { IsTrue (D.look d.now node.now).valid }
{
    let copy = d.copy(node)?;
    put_shown(out, d, &copy)?;
    out.put(", known as ")?;
    Ok(put_known(out, d, &copy)?)
}

fn put_id<D: Symbolic>(out: &mut Shown, d: &D, node: &D::Node) -> Result<(), AllocError>
    requires { IsTrue (D.look d.now node.now).valid }
{
    match d.id(node) {
        Some(id) => out.place("", id),
        None => out.put("none"),
    }
}

// A variable, a value, or an operator and how many arguments it has.
fn put_shown<D: Symbolic>(out: &mut Shown, d: &D, node: &D::Node) -> Result<(), AllocError>
    requires { IsTrue (D.look d.now node.now).valid }
{
    match d.view(node) {
        View::Variable(index) => out.place("variable ", index),
        View::Constant(known) => value(out, known),
        View::Apply(op, args) => {
            operator(out, op)?;
            out.place(") of ", args.len())
        }
    }
}

// The lines of a node, which name earlier ones by their places.
fn put_list<D: Symbolic>(
    alloc: Global,
    out: &mut Shown,
    d: &D,
    node: &D::Node,
) -> Result<(), Failed>
    requires { IsTrue (D.look d.now node.now).valid }
{
    let lines = listed(alloc, d, node)?;
    let put = put_lines(out, d, lines.as_slice());
    drop(lines);
    Ok(put?)
}

fn put_lines<D: Symbolic>(out: &mut Shown, d: &D, lines: &[Line<D::Node>]) -> Result<(), AllocError>
    requires { AreLines (D.look d.now) lines.now }
{
    for line in lines {
        out.part("; ")?;
        put_line(out, d, line)?;
    }
    Ok(())
}

fn put_line<D: Symbolic>(out: &mut Shown, d: &D, line: &Line<D::Node>) -> Result<(), AllocError>
    requires { IsTrue (D.look d.now line.now.node).valid }
{
    match &line.made {
        Made::Leaf => put_shown(out, d, &line.node),
        Made::Apply(op, places) => {
            operator(out, *op)?;
            put_places(out, places.as_slice())
        }
    }
}

fn put_places(out: &mut Shown, places: &[usize]) -> Result<(), AllocError> {
    for place in places {
        out.place(" ", *place)?;
    }
    out.put(")")
}
