//! What is asked of a formula.
ghost use Rattle.std.specs.Prelude.{IsTrue};
ghost use Rattle.data_value.specs.Truth.{IsCondition};

use example_cases::{Failed, is_word};
use node_examples::{numbered, valuation, valuation_count};
use prover::{Answer, decide};
use sexp_text::Form;
use shown_terms::Shown;
use std::alloc::Global;
use symbolic_examples::{Valued, or_nothing};

/// The answer, for a formula that was made over variables of which some were there earlier.
pub(crate) fn told<D: Valued>(
    alloc: Global,
    d: &mut D,
    formula: &D::Node,
    earlier: usize,
    ask: &[Form],
) -> Result<String, Failed>
    requires { IsCondition (D.look d.old formula.now) }
{
    match ask {
        [kind] if is_word(kind, b"decide") => {
            let text = match decide(alloc, d, formula)? {
                Answer::Never => "never",
                Answer::Holds(_) => "holds",
            };
            Ok(String::from_str(alloc, text)?)
        }
        [kind] if is_word(kind, b"keys") => {
            let mut out = Shown::new(alloc);
            out.place("", d.sorts().len().saturating_sub(earlier))?;
            Ok(out.into_text())
        }
        [kind] if is_word(kind, b"where") => places(alloc, d, formula, earlier),
        [kind, values @ ..] if is_word(kind, b"at") => {
            let valuation = valuation(alloc, d.sorts(), values)?;
            let mut out = Shown::new(alloc);
            out.truth("", d.is_true(alloc, formula, &valuation)?)?;
            Ok(out.into_text())
        }
        _ => Err(Failed::NoCall),
    }
}

// The valuations of the earlier variables, by their numbers, under which values of the others make the formula true.
fn places<D: Valued>(
    alloc: Global,
    d: &D,
    formula: &D::Node,
    earlier: usize,
) -> Result<String, Failed>
    requires { IsTrue (D.look d.now formula.now).valid }
{
    let Some(sorts) = d.sorts().get(..earlier) else {
        return Err(Failed::NoCall);
    };
    let count = valuation_count(sorts)?;
    let mut out = Shown::new(alloc);
    for number in 0..count {
        if is_true_with(alloc, d, formula, number, count)? {
            out.part(" ")?;
            out.number("", number)?;
        }
    }
    Ok(or_nothing(alloc, out.into_text())?)
}

// Whether a valuation makes the formula true that gives the earlier variables, which have so many valuations, the one with this number.
fn is_true_with<D: Valued>(
    alloc: Global,
    d: &D,
    formula: &D::Node,
    earlier: u64,
    count: u64,
) -> Result<bool, Failed>
    requires { IsTrue (D.look d.now formula.now).valid }
{
    for number in 0..valuation_count(d.sorts())? {
        if number.checked_rem(count) == Some(earlier) {
            let valuation = numbered(alloc, d.sorts(), number)?;
            if d.is_true(alloc, formula, &valuation)? {
                return Ok(true);
            }
        }
    }
    Ok(false)
}
