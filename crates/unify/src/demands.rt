// What is asked for beside the head of a rule.
ghost use Rattle.std.specs.Prelude.{◌≡◌, ◌+◌, ◌<◌, ◌⊎◌, IfOk, IsTrue, IsSome, Any, All, length, slice_index, slice_get};
ghost use Rattle.data_value.specs.declared.DataSort.TheVariants.{Bool};
ghost use Rattle.data_value.specs.Nodes.{Extends};
ghost use Rattle.sort_term.specs.declared.rule.Demand.TheVariants.{Let, When};
ghost use Rattle.sort_term.specs.declared.rule.Source.TheVariants.{Expr, Row as RowOf};
ghost use Rattle.sort_term.specs.Problems.{IsProgram};
ghost use Rattle.unify.specs.Meets.{seen_matching, IsMatching, Fulfils};
ghost use Rattle.unify.specs.Matchings.{seen_matchings, IsReady, MeetsDemand};
ghost use Rattle.unify.specs.Scopes.{scope_of};

use crate::evaluation::evaluate;
use crate::matching::Matching;
use crate::matchings::{Matchings, copy_matching, joined, supposed};
use crate::plain::plain_node;
use crate::rows::rows_read;
use data_value::Domain;
use no_memory::NoMemory;
use sort_term::{Demand, Pattern, Program, RuleExpr, Semantics, Side, Source, Vars};
use sqlite_items::Items;
use std::alloc::Global;

/// The matchings that go on from one where a demand is met.
pub(crate) fn narrowed<S: Side, D: Domain>(
    alloc: Global,
    d: &mut D,
    semantics: &Semantics<S>,
    program: &Program<S>,
    vars: &Vars,
    demand: &Demand,
    matching: &Matching<D::Node>,
) -> Result<Matchings<D::Node>, NoMemory>
    requires program { IsProgram semantics.now program.now }
    requires matching { IsMatching semantics.now.cons vars.now (seen_matching (D.look d.old) matching.now) }
    requires ready { IsReady semantics.now.cons semantics.now.tables vars.now (seen_matching (D.look d.old) matching.now) demand.now }
    ensures extends { Extends (D.look d.old) (D.look d.new) }
    ensures same_variables { D.variables d.new ≡ D.variables d.old }
    ensures matchings { IfOk result
        (λ ms. MeetsDemand (scope_of semantics.now.cons vars.now (D.variables d.old)) program.now
        demand.now (seen_matching (D.look d.old) matching.now) (seen_matchings (D.look d.new) ms)) }
{
    match demand {
        Demand::Let(pattern, source) => match source {
            Source::Expr(expr) => Ok(let_value(
                alloc, d, semantics, program, vars, pattern, expr, matching,
            )?),
            Source::Row(table, key) => Ok(rows_read(
                alloc, d, semantics, program, vars, pattern, *table, key, matching,
            )?),
        },
        Demand::When(condition) => Ok(when_true(
            alloc, d, semantics, program, vars, condition, matching,
        )?),
    }
}

// A pattern against the value of an expression.
fn let_value<S: Side, D: Domain>(
    alloc: Global,
    d: &mut D,
    semantics: &Semantics<S>,
    program: &Program<S>,
    vars: &Vars,
    pattern: &Pattern,
    expr: &RuleExpr,
    matching: &Matching<D::Node>,
) -> Result<Matchings<D::Node>, NoMemory>
    requires matching { IsMatching semantics.now.cons vars.now (seen_matching (D.look d.old) matching.now) }
    requires ready { IsReady semantics.now.cons semantics.now.tables vars.now
        (seen_matching (D.look d.old) matching.now) (Let pattern.now (Expr expr.now)) }
    ensures extends { Extends (D.look d.old) (D.look d.new) }
    ensures same_variables { D.variables d.new ≡ D.variables d.old }
    ensures matchings { IfOk result
        (λ ms. MeetsDemand (scope_of semantics.now.cons vars.now (D.variables d.old)) program.now
        (Let pattern.now (Expr expr.now)) (seen_matching (D.look d.old) matching.now)
        (seen_matchings (D.look d.new) ms)) }
{
    let term = evaluate(alloc, d, semantics, expr, &matching.binds)?;
    let copy = copy_matching(alloc, d, matching)?;
    Ok(joined(alloc, d, semantics, vars, pattern, &term, copy)?)
}

// A condition.
fn when_true<S: Side, D: Domain>(
    alloc: Global,
    d: &mut D,
    semantics: &Semantics<S>,
    program: &Program<S>,
    vars: &Vars,
    condition: &RuleExpr,
    matching: &Matching<D::Node>,
) -> Result<Matchings<D::Node>, NoMemory>
    requires matching { IsMatching semantics.now.cons vars.now (seen_matching (D.look d.old) matching.now) }
    requires ready { IsReady semantics.now.cons semantics.now.tables vars.now
        (seen_matching (D.look d.old) matching.now) (When condition.now) }
    ensures extends { Extends (D.look d.old) (D.look d.new) }
    ensures same_variables { D.variables d.new ≡ D.variables d.old }
    ensures matchings { IfOk result
        (λ ms. MeetsDemand (scope_of semantics.now.cons vars.now (D.variables d.old)) program.now
        (When condition.now) (seen_matching (D.look d.old) matching.now)
        (seen_matchings (D.look d.new) ms)) }
{
    let term = evaluate(alloc, d, semantics, condition, &matching.binds)?;
    match supposed(alloc, d, plain_node(&term), matching)? {
        Some(more) => {
            let mut matchings = Items::new(alloc);
            matchings.push(more)?;
            Ok(matchings)
        }
        None => Ok(Items::new(alloc)),
    }
}
