//! Calls for leaves without a partner, over any domain with variables.
ghost use Rattle.std.specs.Prelude.{IfOk};
ghost use Rattle.data_value.specs.Nodes.{AllValid};
ghost use Rattle.data_value.specs.Truth.{IsCondition};

use crate::asking::told;
use crate::leaves::{leaf, leaves};
use crate::undefined::with_undefined;
use data_value::Symbolic;
use example_cases::{Failed, Texts, is_word, list};
use expr_pool::Pool;
use expr_tree::Trees;
use machine_examples::problem_without_rows;
use node_examples::{declare, made};
use pair_match::{left_unmatched, right_failed, right_unmatched};
use sexp_text::Form;
use sort_term::Problem;
use std::alloc::Global;
use symbolic_examples::Valued;

/// What is asked of the formula that a leaf has no partner.
pub(crate) fn answer(
    alloc: Global,
    texts: &Texts,
    domain: &Form,
    left: &Form,
    right: &Form,
    points: &Form,
    asked: &[Form],
) -> Result<String, Failed> {
    let [kind, undefined, asked @ ..] = asked else {
        return Err(Failed::NoCall);
    };
    let problem = problem_without_rows(alloc, texts, left, right, points)?;
    let problem = with_undefined(alloc, problem, list(undefined)?)?;
    let text = if is_word(domain, b"pool") {
        asked_of(alloc, &mut Pool::new(alloc)?, &problem, kind, asked)
    } else if is_word(domain, b"trees") {
        asked_of(alloc, &mut Trees::new(alloc), &problem, kind, asked)
    } else {
        Err(Failed::NoCall)
    };
    drop(problem);
    text
}

fn asked_of<D: Valued>(
    alloc: Global,
    d: &mut D,
    problem: &Problem,
    kind: &Form,
    asked: &[Form],
) -> Result<String, Failed> {
    let [sorts, nodes, leaf, others, ask] = asked else {
        return Err(Failed::NoCall);
    };
    declare(d, list(sorts)?)?;
    let nodes = made(alloc, d, list(nodes)?)?;
    let earlier = d.sorts().len();
    let formula = formula(
        alloc,
        d,
        problem,
        kind,
        nodes.as_slice(),
        leaf,
        list(others)?,
    )?;
    told(alloc, d, &formula, earlier, list(ask)?)
}

fn formula<D: Symbolic>(
    alloc: Global,
    d: &mut D,
    problem: &Problem,
    kind: &Form,
    nodes: &[D::Node],
    form: &Form,
    others: &[Form],
) -> Result<D::Node, Failed>
    requires { AllValid (D.look d.old) nodes.now }
    ensures { IfOk result (λ n. IsCondition (D.look d.new n)) }
{
    if is_word(kind, b"left") {
        let leaf = leaf(alloc, d, &problem.left, nodes, form)?;
        let others = leaves(alloc, d, &problem.right, nodes, others)?;
        return Ok(left_unmatched(alloc, d, problem, &leaf, others.as_slice())?);
    }
    let leaf = leaf(alloc, d, &problem.right, nodes, form)?;
    let others = leaves(alloc, d, &problem.left, nodes, others)?;
    if is_word(kind, b"right") {
        return Ok(right_unmatched(alloc, d, problem, &leaf, others.as_slice())?);
    }
    if is_word(kind, b"failed") {
        return Ok(right_failed(alloc, d, problem, &leaf, others.as_slice())?);
    }
    Err(Failed::NoCall)
}
