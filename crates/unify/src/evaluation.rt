// The value of an expression over the nodes of any domain.
ghost use Rattle.std.specs.Prelude.{◌≡◌, IfOk, IsSome, Some, All, map};
ghost use Rattle.data_value.specs.Nodes.{Extends};
ghost use Rattle.sort_term.specs.Sorted.{expr_sort_where};
ghost use Rattle.sort_term.specs.NodeTerms.{seen_term};
ghost use Rattle.unify.specs.Binds.{seen_binds, bound_at, bound_sort, AreValid, IsBound, Gives, GiveAll};

use crate::binds::Binds;
use crate::copy::copy_term;
use crate::plain::plain_nodes;
use data_value::Domain;
use no_memory::NoMemory;
use sort_term::{RuleExpr, Semantics, Side, Term};
use sqlite_items::Items;
use std::alloc::Global;

/// The value of an expression where each variable has the value of its term, as a term over nodes. The expression is well
/// sorted where each variable has the sort of its term, and each of its variables is bound to a term of valid nodes.
///
/// Under every valuation of the domain's variables the answer means the expression's value, and it is of its sort.
#[cycle(evaluate)]
pub fn evaluate<S: Side, D: Domain>(
    alloc: Global,
    d: &mut D,
    semantics: &Semantics<S>,
    expr: &RuleExpr,
    binds: &Binds<D::Node>,
) -> Result<Term<D::Node>, NoMemory>
    requires valid { AreValid (seen_binds (D.look d.old) binds.now) }
    requires sorted { IsSome
        (expr_sort_where semantics.now.cons (bound_sort semantics.now.cons (seen_binds (D.look d.old) binds.now)) expr.now) }
    ensures extends { Extends (D.look d.old) (D.look d.new) }
    ensures same_variables { D.variables d.new ≡ D.variables d.old }
    ensures value { IfOk result
        (λ t. Gives semantics.now.cons (seen_binds (D.look d.old) binds.now) expr.now
        (seen_term (D.look d.new) t)) }
{
    match expr {
        RuleExpr::Var(variable) => Ok(copy_bound(alloc, d, binds, *variable)?),
        RuleExpr::Lit(value) => Ok(Term::Plain(d.constant(value)?)),
        RuleExpr::Op(op, args) => {
            let terms = evaluate_all(alloc, d, semantics, args.as_slice(), binds)?;
            let nodes = plain_nodes(alloc, terms)?;
            Ok(Term::Plain(d.apply(*op, nodes.as_slice())?))
        }
        RuleExpr::Con(con, args) => {
            let terms = evaluate_all(alloc, d, semantics, args.as_slice(), binds)?;
            Ok(Term::Con(*con, Items::from_vec(terms)))
        }
    }
}

#[cycle(evaluate)]
fn evaluate_all<S: Side, D: Domain>(
    alloc: Global,
    d: &mut D,
    semantics: &Semantics<S>,
    exprs: &[RuleExpr],
    binds: &Binds<D::Node>,
) -> Result<Vec<Term<D::Node>>, NoMemory>
    requires valid { AreValid (seen_binds (D.look d.old) binds.now) }
    requires sorted { All
        (λ e. IsSome (expr_sort_where semantics.now.cons (bound_sort semantics.now.cons (seen_binds (D.look d.old) binds.now)) e))
        exprs.now }
    ensures extends { Extends (D.look d.old) (D.look d.new) }
    ensures same_variables { D.variables d.new ≡ D.variables d.old }
    ensures values { IfOk result
        (λ ts. GiveAll semantics.now.cons (seen_binds (D.look d.old) binds.now) exprs.now
        (map (seen_term (D.look d.new)) ts.items)) }
{
    let mut terms = Vec::new(alloc);
    for expr in exprs {
        terms.push(evaluate(alloc, d, semantics, expr, binds)?)?;
    }
    Ok(terms)
}

// The term of a variable.
fn copy_bound<D: Domain>(
    alloc: Global,
    d: &D,
    binds: &Binds<D::Node>,
    variable: usize,
) -> Result<Term<D::Node>, NoMemory>
    requires valid { AreValid (seen_binds (D.look d.now) binds.now) }
    requires bound { IsBound (seen_binds (D.look d.now) binds.now) variable }
    ensures { IfOk result (λ t. bound_at (seen_binds (D.look d.now) binds.now) variable ≡ Some (seen_term (D.look d.now) t)) }
{
    match binds.get(variable) {
        Some(Some(term)) => Ok(copy_term(alloc, d, term)?),
        Some(None) => unreachable!(),
        None => unreachable!(),
    }
}
