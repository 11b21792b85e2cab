//! Whether programs, cuts and points pass their checks against their semantics.
ghost use Rattle.std.specs.Prelude.{◌≡◌, ◌≢◌, ℕ, ◌<◌, ◌^◌, ◌≤◌, ◌||◌, ◌∷◌, [], IsTrue, ◌↔◌, length, slice_get, Some, All, AllPairs, ◌==◌};
ghost use Rattle.std.specs.List.{list_any};
ghost use Rattle.data_value.specs.declared.DataSort.TheVariants.{Bool as BoolSort};
ghost use Rattle.sort_term.specs.declared.term.Sort.TheVariants.{Own, Plain};
ghost use Rattle.sort_term.specs.Sorted.{IsExprOf};
ghost use Rattle.sort_term.specs.Stands.{is_argument};
ghost use Rattle.sort_term.specs.Problems.{IsRow, AreRows, HaveRows, IsProgram, AreWhens, IsCut, AreCuts, AreDetermined, IsConfigExpr, IsPointOf, ArePoints};
ghost use Rattle.sort_term.specs.Rules.{RepeatsOnlyScalars, AllStandIn};

use crate::bound::{all_stand_in, repeats_only_scalars};
use crate::named::are_distinct;
use crate::points::{Cut, Point};
use crate::program::{Row, Rows};
use crate::rule::{Demand, Pattern, RuleExpr, Var};
use crate::semantics::{Con, Semantics, Table};
use crate::signature::{are_known_vars, are_plain_vars};
use crate::sorted::{is_expr_of, is_pattern_of, is_tree_of};
use crate::stands::is_argument;
use crate::term::{Left, Right, Side, Sort};
use data_value::{DataSort, fits_width};

/// Whether a row passes its checks in a table. It takes no memory.
pub fn is_row(cons: &[Con], table: &Table, row: &Row) -> bool
    ensures { IsTrue result ↔ IsRow cons.now table.now row.now }
{
    fits_width(table.key, row.key) && is_tree_of(cons, table.sort, &row.term)
}

/// Whether one of the rows has a key. It takes no memory.
pub fn has_key(rows: &[Row], key: u64) -> bool
    ensures { result ≡ list_any (λ r. r.key == key) rows.now }
{
    rows.iter().any(|row| row.key == key)
}

fn keys_are_distinct(rows: &[Row]) -> bool
    ensures { IsTrue result ↔ AllPairs (λ a b. a.key ≢ b.key) rows.now }
{
    for i in 0..rows.len() {
        let key = rows[i].key;
        if has_key(&rows[..i], key) {
            return false;
        }
    }
    true
}

/// Whether rows pass their checks in a table. It takes no memory.
pub fn are_rows(cons: &[Con], table: &Table, rows: &[Row]) -> bool
    ensures { IsTrue result ↔ AreRows cons.now table.now rows.now }
{
    rows.len() <= 4096 && keys_are_distinct(rows) && rows.iter().all(|row| is_row(cons, table, row))
}

fn have_rows(cons: &[Con], tables: &[Table], lists: &[Rows]) -> bool
    requires { length lists.now ≡ length tables.now }
    ensures { IsTrue result ↔ HaveRows cons.now tables.now lists.now }
{
    for k in 0..tables.len() {
        if !are_rows(cons, &tables[k], lists[k].as_slice()) {
            return false;
        }
    }
    true
}

/// Whether lists of rows are a program of a semantics. It takes no memory.
pub fn is_program<S: Side>(semantics: &Semantics<S>, lists: &[Rows]) -> bool
    ensures { IsTrue result ↔ IsProgram semantics.now lists.now }
{
    let tables = semantics.tables().as_slice();
    lists.len() == tables.len() && have_rows(semantics.cons().as_slice(), tables, lists)
}

/// Whether each of these expressions is a condition over these constructors and variables: of sort bool. It takes no
/// memory.
pub fn are_conditions(cons: &[Con], vars: &[Var], whens: &[RuleExpr]) -> bool
    ensures { IsTrue result ↔ All (IsExprOf cons.now vars.now (Plain BoolSort)) whens.now }
{
    whens.iter().all(|expr| is_expr_of(cons, vars, Sort::Plain(DataSort::Bool), expr))
}

/// Whether conditions pass their checks over these constructors and variables. It takes no memory.
pub fn are_whens(cons: &[Con], vars: &[Var], whens: &[RuleExpr]) -> bool
    ensures { IsTrue result ↔ AreWhens cons.now vars.now whens.now }
{
    whens.len() <= 16 && are_conditions(cons, vars, whens)
}

fn binds_vars(vars: &[Var], pattern: &Pattern) -> bool
    ensures { IsTrue result ↔ (RepeatsOnlyScalars vars.now (pattern.now ∷ []) × AllStandIn vars.now (pattern.now ∷ [])) }
{
    let none: [Demand; 0] = [];
    repeats_only_scalars(vars, pattern, &none) && all_stand_in(vars, pattern, &none)
}

/// Whether an item of a cut passes its checks against a semantics. It takes no memory.
pub fn is_cut<S: Side>(semantics: &Semantics<S>, item: &Cut<S>) -> bool
    ensures { IsTrue result ↔ IsCut semantics.now item.now }
{
    let cons = semantics.cons().as_slice();
    let vars = item.vars.as_slice();
    are_known_vars(semantics.sorts().as_slice(), vars)
        && is_pattern_of(cons, vars, Sort::Own(semantics.config()), &item.pattern)
        && binds_vars(vars, &item.pattern)
        && are_whens(cons, vars, item.whens.as_slice())
}

/// Whether items are a cut of a semantics. It takes no memory.
pub fn are_cuts<S: Side>(semantics: &Semantics<S>, items: &[Cut<S>]) -> bool
    ensures { IsTrue result ↔ AreCuts semantics.now items.now }
{
    items.len() <= 64 && are_distinct(items) && items.iter().all(|item| is_cut(semantics, item))
}

fn is_determined(i: usize, left: &RuleExpr, right: &RuleExpr) -> bool
    ensures { result ≡ (is_argument i left.now || is_argument i right.now) }
{
    is_argument(i, left) || is_argument(i, right)
}

/// Whether each variable is a direct argument of a constructor in one of the two terms. It takes no memory.
pub fn are_determined(vars: &[Var], left: &RuleExpr, right: &RuleExpr) -> bool
    ensures { IsTrue result ↔ AreDetermined vars.now left.now right.now }
{
    for i in 0..vars.len() {
        if !is_determined(i, left, right) {
            return false;
        }
    }
    true
}

/// Whether an expression over these variables is of the configuration sort of a semantics. It takes no memory.
pub fn is_config<S: Side>(semantics: &Semantics<S>, vars: &[Var], expr: &RuleExpr) -> bool
    ensures { IsTrue result ↔ IsConfigExpr semantics.now vars.now expr.now }
{
    let sort = Sort::Own(semantics.config());
    is_expr_of(semantics.cons().as_slice(), vars, sort, expr)
}

fn are_configs(
    left: &Semantics<Left>,
    right: &Semantics<Right>,
    vars: &[Var],
    left_term: &RuleExpr,
    right_term: &RuleExpr,
) -> bool
    ensures { IsTrue result ↔ (IsConfigExpr left.now vars.now left_term.now × IsConfigExpr right.now vars.now right_term.now) }
{
    is_config(left, vars, left_term) && is_config(right, vars, right_term)
}

fn are_plain_whens(vars: &[Var], whens: &[RuleExpr]) -> bool
    ensures { IsTrue result ↔ AreWhens [] vars.now whens.now }
{
    let none: [Con; 0] = [];
    are_whens(&none, vars, whens)
}

/// Whether a point passes its checks against the two semantics. It takes no memory.
pub fn is_point(left: &Semantics<Left>, right: &Semantics<Right>, point: &Point) -> bool
    ensures { IsTrue result ↔ IsPointOf left.now right.now point.now }
{
    let vars = point.vars.as_slice();
    if !are_plain_vars(vars) || !are_plain_whens(vars, point.whens.as_slice()) {
        return false;
    }
    are_configs(left, right, vars, &point.left, &point.right)
        && are_determined(vars, &point.left, &point.right)
}

/// Whether the points pass their checks against the two semantics. It takes no memory.
pub fn are_points(left: &Semantics<Left>, right: &Semantics<Right>, points: &[Point]) -> bool
    ensures { IsTrue result ↔ ArePoints left.now right.now points.now }
{
    1 <= points.len()
        && points.len() <= 64
        && are_distinct(points)
        && points.iter().all(|point| is_point(left, right, point))
}
