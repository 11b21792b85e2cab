//! Where a variable stands.
ghost use Rattle.std.specs.Prelude.{◌≡◌, ◌||◌, min, map};
ghost use Rattle.std.specs.List.{list_any};
ghost use Rattle.sort_term.specs.Stands.{times, times_in, reads, source_reads, demand_reads, argument_of, is_argument};

use crate::rule::{Demand, Pattern, RuleExpr, Source};

/// How many times a variable stands in a pattern, where 2 stands for more than once.
#[cycle(times)]
pub fn times(i: usize, pattern: &Pattern) -> usize
    ensures { result ≡ min (times i pattern.now) 2 }
{
    match pattern {
        Pattern::Bind(j) => { if i == *j { 1 } else { 0 } }
        Pattern::Exact(_) => 0,
        Pattern::Con(_, parts) => times_in(i, parts.as_slice()),
    }
}

#[cycle(times)]
fn times_in(i: usize, patterns: &[Pattern]) -> usize
    ensures { result ≡ min (times_in i patterns.now) 2 }
{
    let mut count = 0;
    for pattern in patterns {
        count = (count + times(i, pattern)).min(2);
    }
    count
}

/// Whether a variable stands in an expression.
#[cycle(reads)]
pub fn reads(i: usize, expr: &RuleExpr) -> bool
    ensures { result ≡ reads i expr.now }
{
    match expr {
        RuleExpr::Var(j) => i == *j,
        RuleExpr::Lit(_) => false,
        RuleExpr::Op(_, parts) => some_reads(i, parts.as_slice()),
        RuleExpr::Con(_, parts) => some_reads(i, parts.as_slice()),
    }
}

#[cycle(reads)]
fn some_reads(i: usize, exprs: &[RuleExpr]) -> bool
    ensures { result ≡ list_any (λ part. part) (map (reads i) exprs.now) }
{
    for expr in exprs {
        if reads(i, expr) {
            return true;
        }
    }
    false
}

fn source_reads(i: usize, source: &Source) -> bool
    ensures { result ≡ source_reads i source.now }
{
    match source {
        Source::Expr(expr) => reads(i, expr),
        Source::Row(_, key) => reads(i, key),
    }
}

/// Whether a variable stands in the right side of a `let` or in a condition.
pub fn demand_reads(i: usize, demand: &Demand) -> bool
    ensures { result ≡ demand_reads i demand.now }
{
    match demand {
        Demand::Let(_, source) => source_reads(i, source),
        Demand::When(expr) => reads(i, expr),
    }
}

fn is_var(i: usize, expr: &RuleExpr) -> bool
    ensures { result ≡ (argument_of i expr.now).0 }
{
    match expr {
        RuleExpr::Var(j) => i == *j,
        _ => false,
    }
}

/// Whether a variable is a direct argument of a constructor in an expression.
#[cycle(argument)]
pub fn is_argument(i: usize, expr: &RuleExpr) -> bool
    ensures { result ≡ is_argument i expr.now }
{
    match expr {
        RuleExpr::Var(_) => false,
        RuleExpr::Lit(_) => false,
        RuleExpr::Op(_, parts) => is_within(i, parts.as_slice()),
        RuleExpr::Con(_, parts) => is_part(i, parts.as_slice()),
    }
}

#[cycle(argument)]
fn is_within(i: usize, parts: &[RuleExpr]) -> bool
    ensures { result ≡ list_any (λ part. part.1) (map (argument_of i) parts.now) }
{
    for part in parts {
        if is_argument(i, part) {
            return true;
        }
    }
    false
}

#[cycle(argument)]
fn is_part(i: usize, parts: &[RuleExpr]) -> bool
    ensures { result ≡ list_any (λ part. part.0 || part.1) (map (argument_of i) parts.now) }
{
    for part in parts {
        if is_var(i, part) || is_argument(i, part) {
            return true;
        }
    }
    false
}
