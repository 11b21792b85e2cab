//! Whether the patterns of a rule or of an item of a cut bind its variables.
ghost use Rattle.std.specs.Prelude.{◌≡◌, ℕ, ◌<◌, ◌∷◌, [], IsTrue, ◌↔◌, min, length, slice_get, take, Some};
ghost use Rattle.sort_term.specs.declared.rule.Demand.{Demand};
ghost use Rattle.sort_term.specs.Stands.{times_in, StandsIn, demand_reads, let_patterns};
ghost use Rattle.sort_term.specs.Rules.{RepeatsOnlyScalars, AllStandIn, IsBoundWhereRead, ReadsBound};

use crate::rule::{Demand, Pattern, Var};
use crate::signature::is_scalar;
use crate::stands::{demand_reads, times};

fn times_in_demand(i: usize, demand: &Demand) -> usize
    ensures { result ≡ min (times_in i (let_patterns (demand.now ∷ []))) 2 }
{
    match demand {
        Demand::Let(pattern, _) => times(i, pattern),
        Demand::When(_) => 0,
    }
}

fn times_in_lets(i: usize, demands: &[Demand]) -> usize
    ensures { result ≡ min (times_in i (let_patterns demands.now)) 2 }
{
    let mut count = 0;
    for demand in demands {
        count = (count + times_in_demand(i, demand)).min(2);
    }
    count
}

/// How many times a variable stands in a pattern and in the patterns of the `let`s among the demands, where 2 stands for
/// more than once. It takes no memory.
pub fn times_in(i: usize, pattern: &Pattern, demands: &[Demand]) -> usize
    ensures { result ≡ min (times_in i (pattern.now ∷ let_patterns demands.now)) 2 }
{
    (times(i, pattern) + times_in_lets(i, demands)).min(2)
}

/// Whether each variable that stands more than once in these patterns is a truth value or a bit vector. It takes no
/// memory.
pub fn repeats_only_scalars(vars: &[Var], pattern: &Pattern, demands: &[Demand]) -> bool
    ensures { IsTrue result ↔ RepeatsOnlyScalars vars.now (pattern.now ∷ let_patterns demands.now) }
{
    for i in 0..vars.len() {
        if 1 < times_in(i, pattern, demands) && !is_scalar(vars[i].sort) {
            return false;
        }
    }
    true
}

/// Whether each variable stands in these patterns. It takes no memory.
pub fn all_stand_in(vars: &[Var], pattern: &Pattern, demands: &[Demand]) -> bool
    ensures { IsTrue result ↔ AllStandIn vars.now (pattern.now ∷ let_patterns demands.now) }
{
    for i in 0..vars.len() {
        if times_in(i, pattern, demands) == 0 {
            return false;
        }
    }
    true
}

/// Whether a variable stands in the head or in the pattern of an earlier `let` wherever a demand reads it.
fn is_bound_in_time(i: usize, head: &Pattern, demands: &[Demand]) -> bool
    ensures { IsTrue result ↔ IsBoundWhereRead i head.now demands.now }
{
    for k in 0..demands.len() {
        if demand_reads(i, &demands[k]) && times_in(i, head, &demands[..k]) == 0 {
            return false;
        }
    }
    true
}

/// Whether each variable that a demand reads stands in the head or in the pattern of an earlier `let`. It takes no
/// memory.
pub fn are_bound_in_time(vars: &[Var], head: &Pattern, demands: &[Demand]) -> bool
    ensures { IsTrue result ↔ ReadsBound vars.now head.now demands.now }
{
    for i in 0..vars.len() {
        if !is_bound_in_time(i, head, demands) {
            return false;
        }
    }
    true
}
