//! Calls of `step` where nodes are values.
use crate::leaf_text::put_rules;
use crate::valued::is_true_value;
use data_value::conditions::flag;
use data_value::{Ground, Value};
use example_cases::{Failed, Texts};
use machine_examples::{Machine, loaded_machine};
use path_condition::{Leaf, begin};
use sexp_text::Form;
use shown_terms::{Shown, term};
use sort_term::{Left, ground_terms_are_trees};
use std::alloc::{AllocError, Global};
use symbolic_step::{Next, step};

/// The steps of a state, and whether it is stuck.
pub(crate) fn answer(
    alloc: Global,
    texts: &Texts,
    semantics: &Form,
    program: &Form,
    state: &Form,
) -> Result<String, Failed> {
    let machine = loaded_machine(alloc, texts, semantics, program, state)?;
    steps_of(alloc, &machine)
}

fn steps_of(alloc: Global, machine: &Machine) -> Result<String, Failed> {
    ground_terms_are_trees();
    // Reading its rules shows that the semantics has passed its checks.
    let _rules = machine.semantics.rules();
    let mut ground = Ground::new(alloc);
    let path = begin(alloc, flag(&mut ground, true)?);
    let next = step(
        alloc,
        &mut ground,
        &machine.semantics,
        &machine.program,
        &machine.state,
        &path,
    )?;
    Ok(shown(alloc, &next)?)
}

fn shown(alloc: Global, next: &Next<Left, Value>) -> Result<String, AllocError> {
    let mut out = Shown::new(alloc);
    for leaf in next.leaves.as_slice() {
        put_leaf(&mut out, leaf)?;
    }
    if is_true_value(&next.stuck) {
        out.part("; ")?;
        out.put("stuck")?;
    }
    Ok(out.into_text())
}

fn put_leaf(out: &mut Shown, leaf: &Leaf<Left, Value>) -> Result<(), AllocError> {
    if !is_true_value(&leaf.condition) {
        return Ok(());
    }
    out.part("; ")?;
    put_rules(out, leaf.rules.as_slice())?;
    out.put(" ")?;
    term(out, leaf.config.term())
}
