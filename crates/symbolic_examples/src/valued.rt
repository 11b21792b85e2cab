//! What nodes mean, over both domains with variables.
ghost use Rattle.std.specs.Prelude.{IsTrue, map};
ghost use Rattle.std.specs.List.{list_all};
ghost use Rattle.data_value.specs.Nodes.{IsValuation};
ghost use Rattle.sort_term.specs.NodeTerms.{seen_term, is_valid_term};

use data_value::{Scalar, Symbolic, Valuation, Value};
use example_cases::Failed;
use expr_pool::Pool;
use expr_tree::{Expr, Trees};
use shown_terms::{Shown, value};
use sort_term::Term;
use std::alloc::Global;

/// A domain whose nodes' meanings can be computed.
pub trait Valued: Symbolic {
    /// Writes what a node means.
    fn put_meaning(
        &self,
        out: &mut Shown,
        alloc: Global,
        node: &Self::Node,
        valuation: &Valuation,
    ) -> Result<(), Failed>
        requires valid { IsTrue (Self.look self.now node.now).valid }
        requires fits { IsValuation (Self.variables self.now) valuation.now };

    /// Whether a node means true.
    fn is_true(
        &self,
        alloc: Global,
        node: &Self::Node,
        valuation: &Valuation,
    ) -> Result<bool, Failed>
        requires valid { IsTrue (Self.look self.now node.now).valid }
        requires fits { IsValuation (Self.variables self.now) valuation.now };
}

impl Valued for Pool {
    fn put_meaning(
        &self,
        out: &mut Shown,
        alloc: Global,
        node: &usize,
        valuation: &Valuation,
    ) -> Result<(), Failed> {
        let _ = alloc;
        match self.values(valuation)?.get(*node) {
            Some(meaning) => Ok(value(out, meaning)?),
            None => Err(Failed::NoCall),
        }
    }

    fn is_true(&self, alloc: Global, node: &usize, valuation: &Valuation) -> Result<bool, Failed> {
        let _ = alloc;
        match self.values(valuation)?.get(*node) {
            Some(meaning) => Ok(is_true_value(meaning)),
            None => Err(Failed::NoCall),
        }
    }
}

impl Valued for Trees {
    fn put_meaning(
        &self,
        out: &mut Shown,
        alloc: Global,
        node: &Expr,
        valuation: &Valuation,
    ) -> Result<(), Failed> {
        Ok(value(out, &expr_tree::value(alloc, node, valuation)?)?)
    }

    fn is_true(&self, alloc: Global, node: &Expr, valuation: &Valuation) -> Result<bool, Failed> {
        Ok(is_true_value(&expr_tree::value(alloc, node, valuation)?))
    }
}

/// Whether a value is the truth value true.
pub(crate) fn is_true_value(value: &Value) -> bool {
    matches!(value, Value::One(Scalar::Flag(true)))
}

/// Writes the tree that a term means.
#[cycle(put_term)]
pub(crate) fn put_term<D: Valued>(
    out: &mut Shown,
    alloc: Global,
    d: &D,
    valuation: &Valuation,
    term: &Term<D::Node>,
) -> Result<(), Failed>
    requires fits { IsValuation (D.variables d.now) valuation.now }
    requires valid { IsTrue (is_valid_term (seen_term (D.look d.now) term.now)) }
{
    match term {
        Term::Plain(node) => d.put_meaning(out, alloc, node, valuation),
        Term::Con(con, args) => {
            out.place("(c", con.0)?;
            put_terms(out, alloc, d, valuation, args.as_slice())?;
            Ok(out.put(")")?)
        }
    }
}

#[cycle(put_term)]
fn put_terms<D: Valued>(
    out: &mut Shown,
    alloc: Global,
    d: &D,
    valuation: &Valuation,
    terms: &[Term<D::Node>],
) -> Result<(), Failed>
    requires fits { IsValuation (D.variables d.now) valuation.now }
    requires valid { IsTrue (list_all is_valid_term (map (seen_term (D.look d.now)) terms.now)) }
{
    for term in terms {
        out.put(" ")?;
        put_term(out, alloc, d, valuation, term)?;
    }
    Ok(())
}
