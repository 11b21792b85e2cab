//! Nodes that mean the same under every valuation of few small variables.
ghost use Rattle.std.specs.Prelude.{IsTrue};
ghost use Rattle.data_value.specs.Nodes.{IsValuation};

use crate::valuations::{numbered, valuation_count};
use data_value::{Symbolic, Valuation, Value, same_value};
use example_cases::Failed;
use shown_terms::Shown;
use std::alloc::Global;

/// A domain with variables that tells what its nodes mean.
pub(crate) trait Meaning: Symbolic {
    /// What a node means under a valuation.
    fn meaning(
        &self,
        alloc: Global,
        node: &Self::Node,
        valuation: &Valuation,
    ) -> Result<Value, Failed>
        requires node { IsTrue (Self.look self.now node.now).valid }
        requires valuation { IsValuation (Self.variables self.now) valuation.now };
}

/// How many valuations there are, where two nodes mean the same under each, or the first one under which they don't, by its number.
pub(crate) fn agreement<D: Meaning>(
    alloc: Global,
    d: &D,
    first: &D::Node,
    second: &D::Node,
) -> Result<String, Failed>
    requires first { IsTrue (D.look d.now first.now).valid }
    requires second { IsTrue (D.look d.now second.now).valid }
{
    let mut out = Shown::new(alloc);
    match difference(alloc, d, first, second)? {
        Some(number) => out.number("not under valuation ", number)?,
        None => {
            out.number("under all ", valuation_count(d.sorts())?)?;
            out.put(" valuations")?;
        }
    }
    Ok(out.into_text())
}

// The first valuation, by its number, under which two nodes don't mean the same.
fn difference<D: Meaning>(
    alloc: Global,
    d: &D,
    first: &D::Node,
    second: &D::Node,
) -> Result<Option<u64>, Failed>
    requires first { IsTrue (D.look d.now first.now).valid }
    requires second { IsTrue (D.look d.now second.now).valid }
{
    for number in 0..valuation_count(d.sorts())? {
        let valuation = numbered(alloc, d.sorts(), number)?;
        let left = d.meaning(alloc, first, &valuation)?;
        let right = d.meaning(alloc, second, &valuation)?;
        if !same_value(&left, &right) {
            return Ok(Some(number));
        }
    }
    Ok(None)
}
