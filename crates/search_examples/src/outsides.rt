//! Calls of `outside`, over any domain with variables.
ghost use Rattle.sort_term.specs.Problems.{AreCuts};

use cut_search::outside;
use example_cases::{Failed, Texts, is_word};
use expr_pool::Pool;
use expr_tree::Trees;
use machine_examples::{loaded_left_cuts, loaded_semantics};
use node_examples::valuation;
use sexp_text::Form;
use shown_terms::Shown;
use sort_term::{Cuts, Left, Semantics};
use std::alloc::Global;
use symbolic_examples::{StartingPoint, Valued, start};

/// Whether `outside` is true, where the variables have some values.
pub(crate) fn answer(
    alloc: Global,
    texts: &Texts,
    domain: &Form,
    semantics: &Form,
    points: &Form,
    asked: &[Form],
) -> Result<String, Failed> {
    let text = semantics;
    let semantics: Semantics<Left> = loaded_semantics(alloc, texts, text)?;
    let cuts = loaded_left_cuts(alloc, texts, &semantics, text, points)?;
    if is_word(domain, b"pool") {
        return told(alloc, &mut Pool::new(alloc)?, &semantics, &cuts, asked);
    }
    if is_word(domain, b"trees") {
        return told(alloc, &mut Trees::new(alloc), &semantics, &cuts, asked);
    }
    Err(Failed::NoCall)
}

fn told<D: Valued>(
    alloc: Global,
    d: &mut D,
    semantics: &Semantics<Left>,
    cuts: &Cuts<Left>,
    asked: &[Form],
) -> Result<String, Failed>
    requires { AreCuts semantics.now cuts.now }
{
    let [from, values @ ..] = asked else {
        return Err(Failed::NoCall);
    };
    let StartingPoint { config, .. } = start(alloc, d, semantics, from)?;
    let outside = outside(alloc, d, semantics, cuts, &config)?;
    let valuation = valuation(alloc, d.sorts(), values)?;
    let mut out = Shown::new(alloc);
    out.truth("", d.is_true(alloc, &outside, &valuation)?)?;
    Ok(out.into_text())
}
