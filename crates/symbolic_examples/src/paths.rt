//! Calls of `begin` and `extend`.
use crate::leaf_text::put_rules;
use crate::starts::condition_at;
use crate::valued::Valued;
use data_value::conditions::known_truth;
use example_cases::{Failed, is_word, list, small};
use expr_pool::Pool;
use expr_tree::Trees;
use node_examples::{declare, made, valuation};
use path_condition::{begin, extend};
use sexp_text::Form;
use shown_terms::Shown;
use sort_term::RuleId;
use std::alloc::Global;

/// What a path with one step more supposes, and by which rules it went.
pub(crate) fn answer(
    alloc: Global,
    domain: &Form,
    sorts: &Form,
    nodes: &Form,
    asked: &[Form],
) -> Result<String, Failed> {
    let (sorts, nodes) = (list(sorts)?, list(nodes)?);
    if is_word(domain, b"pool") {
        return extended(alloc, &mut Pool::new(alloc)?, sorts, nodes, asked);
    }
    if is_word(domain, b"trees") {
        return extended(alloc, &mut Trees::new(alloc), sorts, nodes, asked);
    }
    Err(Failed::NoCall)
}

fn extended<D: Valued>(
    alloc: Global,
    d: &mut D,
    sorts: &[Form],
    nodes: &[Form],
    asked: &[Form],
) -> Result<String, Failed> {
    let [first, second, rule, values @ ..] = asked else {
        return Err(Failed::NoCall);
    };
    declare(d, sorts)?;
    let nodes = made(alloc, d, nodes)?;
    let path = begin(alloc, condition_at(d, nodes.as_slice(), first)?);
    let condition = condition_at(d, nodes.as_slice(), second)?;
    let longer = extend(alloc, d, &path, &condition, RuleId(small(rule)?))?;
    let valuation = valuation(alloc, d.sorts(), values)?;
    let mut out = Shown::new(alloc);
    out.truth("", d.is_true(alloc, &longer.condition, &valuation)?)?;
    match known_truth(d, &longer.condition) {
        Some(truth) => out.truth(", known as ", truth)?,
        None => out.put(", not known")?,
    }
    out.put(", ")?;
    put_rules(&mut out, longer.rules.as_slice())?;
    Ok(out.into_text())
}
