//! Whether rules and the whole of a semantics pass their checks.
ghost use Rattle.std.specs.Prelude.{◌≡◌, ℕ, ◌<◌, ◌≤◌, ◌∷◌, [], IsTrue, IsSome, ◌↔◌, min, length, slice_get, Some, count_by, All, take, option_copied};
ghost use Rattle.sort_term.specs.declared.term.Sort.TheVariants.{Own};
ghost use Rattle.sort_term.specs.System.{system_of};
ghost use Rattle.sort_term.specs.Sorted.{IsPatternOf, IsExprOf};
ghost use Rattle.sort_term.specs.Rules.{row_sort, source_sort, common_sort, demand_sort, is_let, is_when, HasFewDemands, IsSorted, IsBound, IsRule, AreRules, IsSemantics};

use crate::bound::{all_stand_in, are_bound_in_time, repeats_only_scalars};
use crate::ids::SortId;
use crate::named::are_distinct;
use crate::rule::{Demand, Pattern, Rule, RuleExpr, Source, Var};
use crate::semantics::{Con, Table};
use crate::signature::{are_cons, are_sorts, are_tables, are_usable_vars, has_con};
use crate::sorted::{expr_sort, is_expr_of, is_pattern_of, is_same_sort, pattern_sort};
use crate::term::Sort;
use data_value::DataSort;
use sexp_text::Name;
use sqlite_items::at;

fn row_sort(table: Option<&Table>, key: Option<Sort>) -> Option<Sort>
    ensures { result ≡ row_sort (option_copied table.entry) key }
{
    match (table, key) {
        (Some(table), Some(key)) => {
            if is_same_sort(key, Sort::Plain(DataSort::Bits(table.key))) {
                Some(table.sort)
            } else {
                None
            }
        }
        _ => None,
    }
}

/// The sort of the right side of a `let`, and None where it isn't well sorted.
fn source_sort(cons: &[Con], tables: &[Table], vars: &[Var], source: &Source) -> Option<Sort>
    ensures { result ≡ source_sort cons.now tables.now vars.now source.now }
{
    match source {
        Source::Expr(expr) => expr_sort(cons, vars, expr),
        Source::Row(table, key) => row_sort(at(tables, table.0), expr_sort(cons, vars, key)),
    }
}

fn common_sort(a: Option<Sort>, b: Option<Sort>) -> Option<Sort>
    ensures { result ≡ common_sort a b }
{
    match (a, b) {
        (Some(a), Some(b)) => { if is_same_sort(a, b) { Some(a) } else { None } }
        _ => None,
    }
}

/// The sort of a demand, and None where it isn't well sorted: that of both sides of a `let`, and bool for a condition.
/// It takes no memory.
pub fn demand_sort(cons: &[Con], tables: &[Table], vars: &[Var], demand: &Demand) -> Option<Sort>
    ensures { result ≡ demand_sort cons.now tables.now vars.now demand.now }
{
    match demand {
        Demand::Let(pattern, source) => common_sort(
            pattern_sort(cons, vars, pattern),
            source_sort(cons, tables, vars, source),
        ),
        Demand::When(expr) => common_sort(
            Some(Sort::Plain(DataSort::Bool)),
            expr_sort(cons, vars, expr),
        ),
    }
}

fn is_let(demand: &Demand) -> bool
    ensures { result ≡ is_let demand.now }
{
    match demand {
        Demand::Let(..) => true,
        Demand::When(_) => false,
    }
}

fn is_when(demand: &Demand) -> bool
    ensures { result ≡ is_when demand.now }
{
    match demand {
        Demand::Let(..) => false,
        Demand::When(_) => true,
    }
}

fn count_lets(demands: &[Demand]) -> usize
    ensures { result ≡ count_by is_let demands.now }
{
    let mut count = 0;
    for demand in demands {
        if is_let(demand) {
            count += 1;
        }
    }
    count
}

fn count_whens(demands: &[Demand]) -> usize
    ensures { result ≡ count_by is_when demands.now }
{
    let mut count = 0;
    for demand in demands {
        if is_when(demand) {
            count += 1;
        }
    }
    count
}

fn has_few_demands(demands: &[Demand]) -> bool
    ensures { IsTrue result ↔ HasFewDemands demands.now }
{
    count_lets(demands) <= 16 && count_whens(demands) <= 16
}

fn are_sorted(cons: &[Con], tables: &[Table], vars: &[Var], demands: &[Demand]) -> bool
    ensures { IsTrue result ↔ All (λ d. IsSome (demand_sort cons.now tables.now vars.now d)) demands.now }
{
    demands
        .iter()
        .all(|demand| demand_sort(cons, tables, vars, demand).is_some())
}

fn has_ends(cons: &[Con], vars: &[Var], config: SortId, head: &Pattern, end: &RuleExpr) -> bool
    ensures { IsTrue result ↔ (IsPatternOf cons.now vars.now (Own config) head.now × IsExprOf cons.now vars.now (Own config) end.now) }
{
    let sort = Sort::Own(config);
    is_pattern_of(cons, vars, sort, head) && is_expr_of(cons, vars, sort, end)
}

/// Whether a rule is well sorted where these constructors, tables and configuration sort are declared: whether its head
/// and result are of the configuration sort, and each of its demands has a sort. It takes no memory.
pub fn is_sorted(cons: &[Con], tables: &[Table], config: SortId, rule: &Rule) -> bool
    ensures { IsTrue result ↔ IsSorted cons.now tables.now config rule.now }
{
    let vars = rule.vars.as_slice();
    has_ends(cons, vars, config, &rule.head, &rule.result)
        && are_sorted(cons, tables, vars, rule.demands.as_slice())
}

fn is_bound(rule: &Rule) -> bool
    ensures { IsTrue result ↔ IsBound rule.now }
{
    let vars = rule.vars.as_slice();
    let demands = rule.demands.as_slice();
    repeats_only_scalars(vars, &rule.head, demands)
        && all_stand_in(vars, &rule.head, demands)
        && are_bound_in_time(vars, &rule.head, demands)
}

/// Whether a rule passes its checks where these constructors, tables and configuration sort are declared. It takes no
/// memory.
pub fn is_rule(cons: &[Con], tables: &[Table], config: SortId, rule: &Rule) -> bool
    ensures { IsTrue result ↔ IsRule cons.now tables.now config rule.now }
{
    are_usable_vars(cons, rule.vars.as_slice())
        && has_few_demands(rule.demands.as_slice())
        && is_sorted(cons, tables, config, rule)
        && is_bound(rule)
}

fn are_rules(cons: &[Con], tables: &[Table], config: SortId, rules: &[Rule]) -> bool
    ensures { IsTrue result ↔ AreRules cons.now tables.now config rules.now }
{
    rules.len() <= 1000
        && are_distinct(rules)
        && rules.iter().all(|rule| is_rule(cons, tables, config, rule))
}

/// Whether these parts are a semantics: whether they pass their checks as items in the order sorts, constructors,
/// tables, configuration sort, rules. It takes no memory.
pub fn is_semantics(
    sorts: &[Name],
    cons: &[Con],
    tables: &[Table],
    rules: &[Rule],
    config: SortId,
) -> bool
    ensures { IsTrue result ↔ IsSemantics (system_of sorts.now cons.now tables.now rules.now config) }
{
    are_sorts(sorts)
        && are_cons(sorts, cons)
        && are_tables(cons, tables)
        && has_con(cons, config)
        && are_rules(cons, tables, config, rules)
}
