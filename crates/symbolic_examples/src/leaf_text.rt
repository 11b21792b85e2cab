//! Leaves as texts.
ghost use Rattle.std.specs.Prelude.{All};
ghost use Rattle.data_value.specs.Nodes.{IsValuation};
ghost use Rattle.symbolic_examples.specs.Ends.{EndsAtNodes};

use crate::valued::{Valued, put_term};
use data_value::Valuation;
use example_cases::Failed;
use path_condition::Leaf;
use shown_terms::Shown;
use sort_term::{Left, RuleId};
use std::alloc::{AllocError, Global};

/// Writes the leaves that hold under a valuation, each as this kind of leaf with its rules, and with its state if that is asked.
pub fn put_leaves<D: Valued>(
    out: &mut Shown,
    alloc: Global,
    d: &D,
    kind: &str,
    leaves: &[Leaf<Left, D::Node>],
    valuation: &Valuation,
    with_states: bool,
) -> Result<(), Failed>
    requires leaves { All (EndsAtNodes (D.look d.now)) leaves.now }
    requires fits { IsValuation (D.variables d.now) valuation.now }
{
    for leaf in leaves {
        put_leaf(out, alloc, d, kind, leaf, valuation, with_states)?;
    }
    Ok(())
}

fn put_leaf<D: Valued>(
    out: &mut Shown,
    alloc: Global,
    d: &D,
    kind: &str,
    leaf: &Leaf<Left, D::Node>,
    valuation: &Valuation,
    with_states: bool,
) -> Result<(), Failed>
    requires leaf { EndsAtNodes (D.look d.now) leaf.now }
    requires fits { IsValuation (D.variables d.now) valuation.now }
{
    if !d.is_true(alloc, &leaf.condition, valuation)? {
        return Ok(());
    }
    out.part("; ")?;
    out.put(kind)?;
    put_rules(out, leaf.rules.as_slice())?;
    if with_states {
        out.put(" ")?;
        put_term(out, alloc, d, valuation, leaf.config.term())?;
    }
    Ok(())
}

/// Writes the numbers of rules.
pub(crate) fn put_rules(out: &mut Shown, rules: &[RuleId]) -> Result<(), AllocError> {
    out.put("by")?;
    for rule in rules {
        out.place(" ", rule.0)?;
    }
    Ok(())
}

/// The text, or `nothing` in the place of an empty one.
pub fn or_nothing(alloc: Global, text: String) -> Result<String, AllocError> {
    if text.is_empty() {
        String::from_str(alloc, "nothing")
    } else {
        Ok(text)
    }
}
