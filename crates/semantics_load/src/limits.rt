// Whether an item keeps the limits.
ghost use Rattle.std.specs.Prelude.{◌≡◌, ◌↔◌, ◌≤◌, IsTrue, All, count_by};
ghost use Rattle.rule_text.specs.declared.item.Item.{Item};
ghost use Rattle.name_resolution.specs.Known.{vocabulary_of};
ghost use Rattle.name_resolution.specs.Within.{is_within_sort};
ghost use Rattle.semantics_load.specs.Limits.{is_let, is_condition, IsDemandWithin, IsRuleWithin, IsWithinLimits};

use crate::draft::SemanticsDraft;
use name_resolution::{Known, are_vars_within, is_width, is_within_sort, is_within_tree};
use rule_text::{Item, RawDemand, RawSort, RawTree, RawVar};

const MOST_SORTS: usize = 64;

const MOST_CONS: usize = 256;

const MOST_ARGUMENTS: usize = 16;

const MOST_TABLES: usize = 16;

const MOST_RULES: usize = 1000;

const MOST_LETS: usize = 16;

const MOST_CONDITIONS: usize = 16;

/// Whether an item is not one thing too many, and its widths, numbers and terms keep their limits. It takes no memory.
pub fn is_within_limits(draft: &SemanticsDraft, item: &Item) -> bool
    ensures { IsTrue result ↔ IsWithinLimits draft.now item.now }
{
    let known = draft.known();
    match item {
        Item::Sort(_) => draft.sort_count() < MOST_SORTS,
        Item::Con { args, .. } => {
            known.cons.len() < MOST_CONS
                && args.len() <= MOST_ARGUMENTS
                && are_sorts_within(args.as_slice())
        }
        Item::Table { key, sort, .. } => {
            known.tables.len() < MOST_TABLES && is_width(*key) && is_within_sort(sort)
        }
        Item::Rule {
            vars,
            head,
            demands,
            outcome,
            ..
        } => {
            draft.rule_count() < MOST_RULES
                && is_rule_within(&known, vars.as_slice(), head, demands.as_slice(), outcome)
        }
        Item::Config(_)
        | Item::Row { .. }
        | Item::Cut { .. }
        | Item::Point { .. }
        | Item::Start(_) => true,
    }
}

// Whether the widths of sorts are from 1 to 64.
fn are_sorts_within(sorts: &[RawSort]) -> bool
    ensures { IsTrue result ↔ All (λ a. IsTrue (is_within_sort a)) sorts.now }
{
    sorts.iter().all(|sort| is_within_sort(sort))
}

// Whether the parts of a rule keep the limits.
fn is_rule_within(
    known: &Known<'_>,
    vars: &[RawVar],
    head: &RawTree,
    demands: &[RawDemand],
    outcome: &RawTree,
) -> bool
    ensures { IsTrue result ↔ IsRuleWithin (vocabulary_of known.now) vars.now head.now demands.now outcome.now }
{
    are_vars_within(vars)
        && count_lets(demands) <= MOST_LETS
        && count_conditions(demands) <= MOST_CONDITIONS
        && is_within_tree(known, head)
        && demands.iter().all(|demand| is_demand_within(known, demand))
        && is_within_tree(known, outcome)
}

// How many demands are `let`s.
fn count_lets(demands: &[RawDemand]) -> usize
    ensures { result ≡ count_by is_let demands.now }
{
    let mut count = 0;
    for demand in demands {
        if !is_condition(demand) {
            count += 1;
        }
    }
    count
}

// How many demands are conditions.
fn count_conditions(demands: &[RawDemand]) -> usize
    ensures { result ≡ count_by is_condition demands.now }
{
    let mut count = 0;
    for demand in demands {
        if is_condition(demand) {
            count += 1;
        }
    }
    count
}

// Whether a demand is a condition.
fn is_condition(demand: &RawDemand) -> bool
    ensures { result ≡ is_condition demand.now }
{
    match demand {
        RawDemand::Let(..) | RawDemand::LetRow { .. } => false,
        RawDemand::When(_) => true,
    }
}

// Whether the terms of a demand keep the limits.
fn is_demand_within(known: &Known<'_>, demand: &RawDemand) -> bool
    ensures { IsTrue result ↔ IsDemandWithin (vocabulary_of known.now) demand.now }
{
    match demand {
        RawDemand::Let(pattern, source) => {
            is_within_tree(known, pattern) && is_within_tree(known, source)
        }
        RawDemand::LetRow { pattern, key, .. } => {
            is_within_tree(known, pattern) && is_within_tree(known, key)
        }
        RawDemand::When(condition) => is_within_tree(known, condition),
    }
}
