// The branches of a rule.
ghost use Rattle.std.specs.Prelude.{◌≡◌, ◌↔◌, [], ◌∷◌, ◌+◌, ◌<◌, IfOk, Any, All, List, length, slice_get, Some};
ghost use Rattle.data_value.specs.declared.Value.{Value};
ghost use Rattle.data_value.specs.Nodes.{Extends, IsValuation};
ghost use Rattle.sort_term.specs.Problems.{IsProgram};
ghost use Rattle.sort_term.specs.Rules.{IsRule};
ghost use Rattle.sort_term.specs.NodeTerms.{seen_term};
ghost use Rattle.unify.specs.Meets.{seen_matching, Fulfils, Equals};
ghost use Rattle.unify.specs.Matchings.{seen_matchings, AreAfter, BranchesOf, Next, Started, AllMet, Binds, BoundBy};
ghost use Rattle.unify.specs.Branches.{IsConfiguration, AreBranches, seen_branches};
ghost use Rattle.unify.specs.Scopes.{rule_scope_of};

use crate::binds::unbound;
use crate::branch::{Branch, BranchList};
use crate::demands::narrowed;
use crate::equations::is_known_as;
use crate::evaluation::evaluate;
use crate::matching::Matching;
use crate::matchings::{Matchings, joined};
use data_value::Domain;
use data_value::conditions::all;
use no_memory::NoMemory;
use sort_term::{Config, Program, Rule, RuleId, Semantics, Side, Term};
use sqlite_items::Items;
use std::alloc::Global;

/// The branches of the rule with a number from a configuration. The rule is one of the semantics, the program fits the
/// semantics, and the configuration is a term of valid nodes which by their sorts is of the configuration sort.
///
/// Under every valuation of the domain's variables, the rule's steps from the configuration's value are exactly those to the
/// values of the results of the branches whose condition is true. The conditions are nodes of sort bool, none of them known to
/// be false, and the results are configurations, in the domain as it is after the call; its variables stay as they are. So
/// where a table is read at a key that isn't known, there is a branch for each row that some valuation reads.
pub fn branches<S: Side, D: Domain>(
    alloc: Global,
    d: &mut D,
    semantics: &Semantics<S>,
    program: &Program<S>,
    rule: RuleId,
    config: &Config<S, D::Node>,
) -> Result<BranchList<S, D::Node>, NoMemory>
    requires rule { rule.0 < length semantics.now.rules }
    requires program { IsProgram semantics.now program.now }
    requires config { IsConfiguration semantics.now (seen_term (D.look d.old) config.now.term) }
    ensures extends { Extends (D.look d.old) (D.look d.new) }
    ensures same_variables { D.variables d.new ≡ D.variables d.old }
    ensures branches { IfOk result
        (λ bs. AreBranches (D.variables d.old) semantics.now program.now rule.0
        (seen_term (D.look d.old) config.now.term) (seen_branches (D.look d.new) bs)) }
{
    let rule = &semantics.rules().as_slice()[rule.0];
    let matchings = started(alloc, d, semantics, rule, config.term())?;
    let matchings = after_demands(alloc, d, semantics, program, rule, matchings)?;
    Ok(finished(alloc, d, semantics, rule, matchings.as_slice())?)
}

// The matchings in which the head of a rule is equal to a term.
fn started<S: Side, D: Domain>(
    alloc: Global,
    d: &mut D,
    semantics: &Semantics<S>,
    rule: &Rule,
    term: &Term<D::Node>,
) -> Result<Matchings<D::Node>, NoMemory>
    requires rule { IsRule semantics.now.cons semantics.now.tables semantics.now.config rule.now }
    requires term { IsConfiguration semantics.now (seen_term (D.look d.old) term.now) }
    ensures extends { Extends (D.look d.old) (D.look d.new) }
    ensures same_variables { D.variables d.new ≡ D.variables d.old }
    ensures matchings { IfOk result
        (λ ms. Started semantics.now (D.variables d.old) rule.now (seen_term (D.look d.old) term.now)
        (seen_matchings (D.look d.new) ms)) }
{
    let none = Matching {
        binds: unbound(alloc, rule.vars.len())?,
        equations: Items::new(alloc),
    };
    Ok(joined(alloc, d, semantics, &rule.vars, &rule.head, term, none)?)
}

// The matchings in which moreover all demands are met.
fn after_demands<S: Side, D: Domain>(
    alloc: Global,
    d: &mut D,
    semantics: &Semantics<S>,
    program: &Program<S>,
    rule: &Rule,
    matchings: Matchings<D::Node>,
) -> Result<Matchings<D::Node>, NoMemory>
    requires program { IsProgram semantics.now program.now }
    requires rule { IsRule semantics.now.cons semantics.now.tables semantics.now.config rule.now }
    requires matchings { AreAfter semantics.now rule.now 0 (seen_matchings (D.look d.old) matchings) }
    ensures extends { Extends (D.look d.old) (D.look d.new) }
    ensures same_variables { D.variables d.new ≡ D.variables d.old }
    ensures matchings { IfOk result
        (λ ms. AllMet (rule_scope_of semantics.now program.now (D.variables d.old) rule.now)
        (length rule.now.demands) (seen_matchings (D.look d.old) matchings)
        (seen_matchings (D.look d.new) ms)) }
{
    let mut found = matchings;
    for place in 0..rule.demands.len() {
        found = after_demand(alloc, d, semantics, program, rule, place, found.as_slice())?;
    }
    Ok(found)
}

// The matchings in which moreover the demand at a place is met.
fn after_demand<S: Side, D: Domain>(
    alloc: Global,
    d: &mut D,
    semantics: &Semantics<S>,
    program: &Program<S>,
    rule: &Rule,
    place: usize,
    matchings: &[Matching<D::Node>],
) -> Result<Matchings<D::Node>, NoMemory>
    requires program { IsProgram semantics.now program.now }
    requires rule { IsRule semantics.now.cons semantics.now.tables semantics.now.config rule.now }
    requires place { place < length rule.now.demands }
    requires matchings { AreAfter semantics.now rule.now place (seen_matchings (D.look d.old) matchings.now) }
    ensures extends { Extends (D.look d.old) (D.look d.new) }
    ensures same_variables { D.variables d.new ≡ D.variables d.old }
    ensures matchings { IfOk result
        (λ ms. Next (rule_scope_of semantics.now program.now (D.variables d.old) rule.now) place
        (seen_matchings (D.look d.old) matchings.now) (seen_matchings (D.look d.new) ms)) }
{
    let demand = &rule.demands.as_slice()[place];
    let mut found = Items::new(alloc);
    for matching in matchings {
        let more = narrowed(alloc, d, semantics, program, &rule.vars, demand, matching)?;
        found.append(more)?;
    }
    Ok(found)
}

// The branches of matchings in which the head is equal to the term and all demands are met.
fn finished<S: Side, D: Domain>(
    alloc: Global,
    d: &mut D,
    semantics: &Semantics<S>,
    rule: &Rule,
    matchings: &[Matching<D::Node>],
) -> Result<BranchList<S, D::Node>, NoMemory>
    requires rule { IsRule semantics.now.cons semantics.now.tables semantics.now.config rule.now }
    requires matchings { AreAfter semantics.now rule.now (length rule.now.demands) (seen_matchings (D.look d.old) matchings.now) }
    ensures extends { Extends (D.look d.old) (D.look d.new) }
    ensures same_variables { D.variables d.new ≡ D.variables d.old }
    ensures branches { IfOk result
        (λ bs. BranchesOf semantics.now rule.now (seen_matchings (D.look d.old) matchings.now)
        (seen_branches (D.look d.new) bs)) }
{
    let mut branches = Items::new(alloc);
    for matching in matchings {
        let more = ended(alloc, d, semantics, rule, matching)?;
        branches.append(more)?;
    }
    Ok(branches)
}

// The branch of a matching; none where its condition is known to be false.
fn ended<S: Side, D: Domain>(
    alloc: Global,
    d: &mut D,
    semantics: &Semantics<S>,
    rule: &Rule,
    matching: &Matching<D::Node>,
) -> Result<BranchList<S, D::Node>, NoMemory>
    requires rule { IsRule semantics.now.cons semantics.now.tables semantics.now.config rule.now }
    requires matching { Binds semantics.now.cons rule.now.vars
        (BoundBy rule.now (length rule.now.demands)) (seen_matching (D.look d.old) matching.now) }
    ensures extends { Extends (D.look d.old) (D.look d.new) }
    ensures same_variables { D.variables d.new ≡ D.variables d.old }
    ensures branches { IfOk result
        (λ bs. BranchesOf semantics.now rule.now (seen_matching (D.look d.old) matching.now ∷ [])
        (seen_branches (D.look d.new) bs)) }
{
    let condition = all(alloc, d, matching.equations.as_slice())?;
    if is_known_as(d, &condition, false) {
        return Ok(Items::new(alloc)); // Under no valuation is it true.
    }
    let result = evaluate(alloc, d, semantics, &rule.result, &matching.binds)?;
    let mut branches = Items::new(alloc);
    branches.push(Branch {
        condition,
        result: Config::new(result),
    })?;
    Ok(branches)
}
