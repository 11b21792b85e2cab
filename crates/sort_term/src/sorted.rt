//! The sorts of trees, patterns and expressions.
ghost use Rattle.std.specs.Prelude.{◌≡◌, map, Some, IsTrue, ◌↔◌, if◌then◌else◌};
ghost use Rattle.sort_term.specs.declared.term.Sort.TheVariants.{Own};
ghost use Rattle.data_value.specs.declared.Value.TheVariants.{One};
ghost use Rattle.sort_term.specs.Sorted.{is_same, has_sort, have_sorts, con_sort, applied_sort, fitted_sort, data_part, leaf_sort, var_sort, tree_sort, pattern_sort, expr_sort, IsTreeOf, IsPatternOf, IsExprOf};

use crate::rule::{Pattern, RuleExpr, Var};
use crate::semantics::Con;
use crate::term::{Sort, Term};
use data_value::{DataSort, Op, Scalar, Value, is_value, same_sort, sort_of, value_sort};
use sqlite_items::at;

/// Whether two sorts are one. It takes no memory.
pub fn is_same_sort(a: Sort, b: Sort) -> bool
    ensures { result ≡ is_same a b }
{
    match (a, b) {
        (Sort::Own(a), Sort::Own(b)) => a.0 == b.0,
        (Sort::Plain(a), Sort::Plain(b)) => same_sort(a, b),
        _ => false,
    }
}

fn has_this_sort(part: Option<Sort>, sort: Sort) -> bool
    ensures { result ≡ has_sort part sort }
{
    match part {
        Some(a) => is_same_sort(a, sort),
        None => false,
    }
}

fn sort_of_leaf(value: &Value) -> Option<Sort>
    ensures { result ≡ leaf_sort value.now }
{
    if is_value(value) {
        Some(Sort::Plain(value_sort(value)))
    } else {
        None
    }
}

fn sort_of_scalar(scalar: Scalar) -> Option<Sort>
    ensures { result ≡ leaf_sort (One scalar) }
{
    let value = Value::One(scalar);
    sort_of_leaf(&value)
}

fn sort_of_var(vars: &[Var], i: usize) -> Option<Sort>
    ensures { result ≡ var_sort vars.now i }
{
    match vars.get(i) {
        Some(x) => Some(x.sort),
        None => None,
    }
}

/// The sort of what a constructor makes of parts, where it is told whether they have its argument sorts.
fn sort_by(con: &Con, fits: bool) -> Option<Sort>
    ensures { result ≡ (if fits then Some (Own con.now.sort) else None) }
{
    if fits {
        Some(Sort::Own(con.sort))
    } else {
        None
    }
}

/// The sort of a tree over these constructors, and None where it isn't well sorted. It takes no memory.
#[cycle(tree_sort)]
pub fn tree_sort(cons: &[Con], tree: &Term<Value>) -> Option<Sort>
    ensures { result ≡ tree_sort cons.now tree.now }
{
    match tree {
        Term::Plain(value) => sort_of_leaf(value),
        Term::Con(c, parts) => match at(cons, c.0) {
            Some(con) => sort_by(con, trees_have(cons, parts.as_slice(), con.args.as_slice())),
            None => None,
        },
    }
}

#[cycle(tree_sort)]
fn trees_have(cons: &[Con], parts: &[Term<Value>], sorts: &[Sort]) -> bool
    ensures { result ≡ have_sorts (map (tree_sort cons.now) parts.now) sorts.now }
{
    if parts.len() != sorts.len() {
        return false;
    }
    for i in 0..parts.len() {
        if !has_this_sort(tree_sort(cons, &parts[i]), sorts[i]) {
            return false;
        }
    }
    true
}

/// The sort of a pattern over these constructors and variables, and None where it isn't well sorted. It takes no
/// memory.
#[cycle(pattern_sort)]
pub fn pattern_sort(cons: &[Con], vars: &[Var], pattern: &Pattern) -> Option<Sort>
    ensures { result ≡ pattern_sort cons.now vars.now pattern.now }
{
    match pattern {
        Pattern::Bind(i) => sort_of_var(vars, *i),
        Pattern::Exact(scalar) => sort_of_scalar(*scalar),
        Pattern::Con(c, parts) => match at(cons, c.0) {
            Some(con) => sort_by(
                con,
                patterns_have(cons, vars, parts.as_slice(), con.args.as_slice()),
            ),
            None => None,
        },
    }
}

#[cycle(pattern_sort)]
fn patterns_have(cons: &[Con], vars: &[Var], parts: &[Pattern], sorts: &[Sort]) -> bool
    ensures { result ≡ have_sorts (map (pattern_sort cons.now vars.now) parts.now) sorts.now }
{
    if parts.len() != sorts.len() {
        return false;
    }
    for i in 0..parts.len() {
        if !has_this_sort(pattern_sort(cons, vars, &parts[i]), sorts[i]) {
            return false;
        }
    }
    true
}

fn data_part(part: Option<Sort>) -> Option<DataSort>
    ensures { result ≡ data_part part }
{
    match part {
        Some(Sort::Plain(a)) => Some(a),
        _ => None,
    }
}

/// The sort of what an operator makes of parts of these sorts of data.
fn sort_by_op(op: Op, args: &[DataSort]) -> Option<Sort>
    ensures { result ≡ fitted_sort op (Some args.now) }
{
    match sort_of(op, args) {
        Some(a) => Some(Sort::Plain(a)),
        None => None,
    }
}

/// The sort of an expression over these constructors and variables, and None where it isn't well sorted. It takes no
/// memory.
#[cycle(expr_sort)]
pub fn expr_sort(cons: &[Con], vars: &[Var], expr: &RuleExpr) -> Option<Sort>
    ensures { result ≡ expr_sort cons.now vars.now expr.now }
{
    match expr {
        RuleExpr::Var(i) => sort_of_var(vars, *i),
        RuleExpr::Lit(value) => sort_of_leaf(value),
        RuleExpr::Op(op, parts) => applied_sort(cons, vars, *op, parts.as_slice()),
        RuleExpr::Con(c, parts) => match at(cons, c.0) {
            Some(con) => sort_by(
                con,
                exprs_have(cons, vars, parts.as_slice(), con.args.as_slice()),
            ),
            None => None,
        },
    }
}

#[cycle(expr_sort)]
fn exprs_have(cons: &[Con], vars: &[Var], parts: &[RuleExpr], sorts: &[Sort]) -> bool
    ensures { result ≡ have_sorts (map (expr_sort cons.now vars.now) parts.now) sorts.now }
{
    if parts.len() != sorts.len() {
        return false;
    }
    for i in 0..parts.len() {
        if !has_this_sort(expr_sort(cons, vars, &parts[i]), sorts[i]) {
            return false;
        }
    }
    true
}

// No operator takes more than three arguments.
#[cycle(expr_sort)]
fn applied_sort(cons: &[Con], vars: &[Var], op: Op, parts: &[RuleExpr]) -> Option<Sort>
    ensures { result ≡ applied_sort op (map (expr_sort cons.now vars.now) parts.now) }
{
    let mut args = [DataSort::Bool; 3];
    if parts.len() > 3 {
        return None;
    }
    for i in 0..parts.len() {
        match data_part(expr_sort(cons, vars, &parts[i])) {
            Some(a) => args[i] = a,
            None => return None,
        }
    }
    sort_by_op(op, &args[..parts.len()])
}

/// Whether a tree is of this sort. It takes no memory.
pub fn is_tree_of(cons: &[Con], sort: Sort, tree: &Term<Value>) -> bool
    ensures { IsTrue result ↔ IsTreeOf cons.now sort tree.now }
{
    tree_sort(cons, tree) == Some(sort)
}

/// Whether a pattern is of this sort. It takes no memory.
pub fn is_pattern_of(cons: &[Con], vars: &[Var], sort: Sort, pattern: &Pattern) -> bool
    ensures { IsTrue result ↔ IsPatternOf cons.now vars.now sort pattern.now }
{
    pattern_sort(cons, vars, pattern) == Some(sort)
}

/// Whether an expression is of this sort. It takes no memory.
pub fn is_expr_of(cons: &[Con], vars: &[Var], sort: Sort, expr: &RuleExpr) -> bool
    ensures { IsTrue result ↔ IsExprOf cons.now vars.now sort expr.now }
{
    expr_sort(cons, vars, expr) == Some(sort)
}
