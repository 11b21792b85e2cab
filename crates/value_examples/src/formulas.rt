//! Calls on formulas without maps. A formula is the widths of its inputs and its nodes, where a node is a truth value, a word as
//! `(WIDTH BITS)`, an input as `(in INPUT)`, or an operator at places, as `(add 0 1)` and `((extract 7 4) 0)`. `(flat (WIDTH ..) (NODE
//! ..) ROOT (WORD ..))` answers the values of all places where the inputs have these words, and `(words (WIDTH ..) (WORD ..))` whether
//! words fit widths. Where the root is the last node, `(solve (WIDTH ..) (NODE ..))` answers words that make it true, found as a model
//! of the formula's circuit, `(size (WIDTH ..) (NODE ..))` how large that circuit is, and `(circuit (WIDTH ..) (NODE ..))` its clauses.
use bv_blast::{Circuit, blast, words};
use clause_search::{Found, search};
use data_value::{
    Flat, FlatNode, FlatNodes, Places, Scalar, Scalars, Widths, Words, are_words, flat_values,
    is_flat,
};
use example_cases::{Failed, is_word, list, number, small};
use no_memory::NoMemory;
use sexp_text::{Form, FormKind};
use shown_terms::{Shown, operands};
use sqlite_items::Items;
use std::alloc::{AllocError, Global};

/// What the call with this name answers; None where there is no such call.
pub(crate) fn answer(
    alloc: Global,
    name: &[u8],
    arguments: &[Form],
) -> Result<Option<String>, Failed> {
    let answer = match arguments {
        [widths, nodes, root, words] if name == b"flat".as_slice() => {
            places(alloc, widths, nodes, root, words)
        }
        [widths, words] if name == b"words".as_slice() => fitting(alloc, widths, words),
        [widths, nodes] if name == b"solve".as_slice() => solved(alloc, widths, nodes),
        [widths, nodes] if name == b"size".as_slice() => size(alloc, widths, nodes),
        [widths, nodes] if name == b"circuit".as_slice() => circuit(alloc, widths, nodes),
        _ => return Ok(None),
    };
    Ok(Some(answer?))
}

fn told(alloc: Global, text: &str) -> Result<String, Failed> {
    Ok(String::from_str(alloc, text)?)
}

// The values of all places.
fn places(
    alloc: Global,
    widths: &Form,
    nodes: &Form,
    root: &Form,
    words: &Form,
) -> Result<String, Failed> {
    let root = small(root)?;
    let nodes = nodes_of(alloc, nodes)?;
    match formula(alloc, widths, nodes, root)? {
        Some(flat) => {
            let text = places_at(alloc, &flat, words);
            drop(flat);
            text
        }
        None => told(alloc, "no formula"),
    }
}

// The values of all places of a formula where its inputs have these words.
fn places_at(alloc: Global, flat: &Flat, words: &Form) -> Result<String, Failed> {
    let words = words_of(alloc, words)?;
    let values = values_at(alloc, flat, &words);
    drop(words);
    match values? {
        Some(values) => {
            let text = values_text(alloc, values.as_slice());
            drop(values);
            Ok(text?)
        }
        None => told(alloc, "no words"),
    }
}

fn values_at(alloc: Global, flat: &Flat, words: &Words) -> Result<Option<Scalars>, NoMemory> {
    if !are_words(flat.widths.as_slice(), words.as_slice()) {
        return Ok(None);
    }
    Ok(Some(flat_values(alloc, flat, words)?))
}

fn values_text(alloc: Global, values: &[Scalar]) -> Result<String, AllocError> {
    let mut out = Shown::new(alloc);
    for value in values {
        out.part(" ")?;
        shown_terms::scalar(&mut out, *value)?;
    }
    Ok(out.into_text())
}

fn fitting(alloc: Global, widths: &Form, words: &Form) -> Result<String, Failed> {
    let widths = widths_of(alloc, widths)?;
    let words = words_of(alloc, words)?;
    let are_words = are_words(widths.as_slice(), words.as_slice());
    told(alloc, if are_words { "true" } else { "false" })
}

fn solved(alloc: Global, widths: &Form, nodes: &Form) -> Result<String, Failed> {
    match circuit_of(alloc, widths, nodes)? {
        Some(circuit) => {
            let text = circuit_model(alloc, &circuit);
            drop(circuit);
            text
        }
        None => told(alloc, "no formula"),
    }
}

// Words that make a formula true.
fn circuit_model(alloc: Global, circuit: &Circuit) -> Result<String, Failed> {
    match search(alloc, &circuit.clauses)? {
        Found::Model(model) => {
            let found = words(alloc, circuit, &model);
            drop(model);
            let words = found?;
            let text = words_text(alloc, words.as_slice());
            drop(words);
            Ok(text?)
        }
        Found::Refuted(derivation) => {
            drop(derivation);
            told(alloc, "no model")
        }
    }
}

fn words_text(alloc: Global, words: &[u64]) -> Result<String, AllocError> {
    let mut out = Shown::new(alloc);
    out.put("(")?;
    for (place, word) in words.iter().enumerate() {
        out.number(if place == 0 { "" } else { " " }, *word)?;
    }
    out.put(")")?;
    Ok(out.into_text())
}

fn size(alloc: Global, widths: &Form, nodes: &Form) -> Result<String, Failed> {
    match circuit_of(alloc, widths, nodes)? {
        Some(circuit) => {
            let text = clause_text::size(alloc, &circuit.clauses);
            drop(circuit);
            Ok(text?)
        }
        None => told(alloc, "no formula"),
    }
}

fn circuit(alloc: Global, widths: &Form, nodes: &Form) -> Result<String, Failed> {
    match circuit_of(alloc, widths, nodes)? {
        Some(circuit) => {
            let text = clause_text::text(alloc, &circuit.clauses);
            drop(circuit);
            Ok(text?)
        }
        None => told(alloc, "no formula"),
    }
}

// The circuit of the formula whose root is the last node.
fn circuit_of(alloc: Global, widths: &Form, nodes: &Form) -> Result<Option<Circuit>, Failed> {
    match ending(alloc, widths, nodes)? {
        Some(flat) => {
            let circuit = blast(alloc, &flat);
            drop(flat);
            Ok(Some(circuit?))
        }
        None => Ok(None),
    }
}

// The formula whose root is the last node.
fn ending(alloc: Global, widths: &Form, nodes: &Form) -> Result<Option<Flat>, Failed> {
    let nodes = nodes_of(alloc, nodes)?;
    let root = nodes.len().saturating_sub(1);
    formula(alloc, widths, nodes, root)
}

fn formula(
    alloc: Global,
    widths: &Form,
    nodes: FlatNodes,
    root: usize,
) -> Result<Option<Flat>, Failed> {
    let widths = widths_of(alloc, widths)?;
    if is_flat(alloc, nodes.as_slice(), widths.as_slice(), root)? {
        Ok(Some(Flat {
            nodes,
            widths,
            root,
        }))
    } else {
        Ok(None)
    }
}

fn widths_of(alloc: Global, form: &Form) -> Result<Widths, Failed> {
    let mut widths = Items::new(alloc);
    for width in list(form)? {
        widths.push(operands::byte(width)?)?;
    }
    Ok(widths)
}

fn words_of(alloc: Global, form: &Form) -> Result<Words, Failed> {
    let mut words = Items::new(alloc);
    for word in list(form)? {
        words.push(number(word)?)?;
    }
    Ok(words)
}

fn nodes_of(alloc: Global, form: &Form) -> Result<FlatNodes, Failed> {
    let mut nodes = Items::new(alloc);
    for part in list(form)? {
        nodes.push(node(alloc, part)?)?;
    }
    Ok(nodes)
}

fn node(alloc: Global, form: &Form) -> Result<FlatNode, Failed> {
    match &form.kind {
        FormKind::List(parts) => match parts.as_slice() {
            [head, input] if is_word(head, b"in") => Ok(FlatNode::Input(small(input)?)),
            [head, places @ ..] if !is_number(head) => {
                let op = operands::operator(head)?;
                Ok(FlatNode::Apply(op, places_of(alloc, places)?))
            }
            _ => Ok(FlatNode::Fixed(operands::scalar(form)?)),
        },
        _ => Ok(FlatNode::Fixed(operands::scalar(form)?)),
    }
}

fn is_number(form: &Form) -> bool {
    matches!(form.kind, FormKind::Number(_))
}

fn places_of(alloc: Global, forms: &[Form]) -> Result<Places, Failed> {
    let mut places = Items::new(alloc);
    for form in forms {
        places.push(small(form)?)?;
    }
    Ok(places)
}
