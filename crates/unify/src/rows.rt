// A `let` that reads the row of a table.
ghost use Rattle.std.specs.Prelude.{◌≡◌, ◌<◌, IfOk, IsSome, Some, All, Any, length, slice_get, option_map};
ghost use Rattle.data_value.specs.declared.DataSort.TheVariants.{Bits as BitsSort};
ghost use Rattle.data_value.specs.Nodes.{Extends};
ghost use Rattle.sort_term.specs.declared.rule.Demand.TheVariants.{Let};
ghost use Rattle.sort_term.specs.declared.rule.Source.TheVariants.{Row as RowOf};
ghost use Rattle.sort_term.specs.declared.term.Sort.TheVariants.{Plain as DataOf};
ghost use Rattle.sort_term.specs.Sorted.{pattern_sort};
ghost use Rattle.sort_term.specs.Stands.{times};
ghost use Rattle.sort_term.specs.Problems.{IsProgram};
ghost use Rattle.sort_term.specs.NodeTerms.{node_sort};
ghost use Rattle.unify.specs.Meets.{seen_matching, IsMatching, RebindsOnlyScalars};
ghost use Rattle.unify.specs.Matchings.{seen_matchings, IsReady, GoOn, MeetsDemand, ReadsRow, IsRowFor};
ghost use Rattle.unify.specs.Scopes.{scope_of};

use crate::constants::{constant_term, key_test};
use crate::evaluation::evaluate;
use crate::matching::Matching;
use crate::matchings::{Matchings, joined, supposed};
use crate::plain::plain_node;
use data_value::Domain;
use no_memory::NoMemory;
use sort_term::{Pattern, Program, Row, RuleExpr, Semantics, Side, TableId, Vars};
use sqlite_items::Items;
use std::alloc::Global;

/// A pattern against the term of the row whose key is the value of an expression. Where the key isn't known, it is met by
/// any row whose key isn't known to be another.
pub(crate) fn rows_read<S: Side, D: Domain>(
    alloc: Global,
    d: &mut D,
    semantics: &Semantics<S>,
    program: &Program<S>,
    vars: &Vars,
    pattern: &Pattern,
    table: TableId,
    key: &RuleExpr,
    matching: &Matching<D::Node>,
) -> Result<Matchings<D::Node>, NoMemory>
    requires program { IsProgram semantics.now program.now }
    requires matching { IsMatching semantics.now.cons vars.now (seen_matching (D.look d.old) matching.now) }
    requires ready { IsReady semantics.now.cons semantics.now.tables vars.now
        (seen_matching (D.look d.old) matching.now) (Let pattern.now (RowOf table key.now)) }
    ensures extends { Extends (D.look d.old) (D.look d.new) }
    ensures same_variables { D.variables d.new ≡ D.variables d.old }
    ensures matchings { IfOk result
        (λ ms. MeetsDemand (scope_of semantics.now.cons vars.now (D.variables d.old)) program.now
        (Let pattern.now (RowOf table key.now)) (seen_matching (D.look d.old) matching.now)
        (seen_matchings (D.look d.new) ms)) }
{
    let term = evaluate(alloc, d, semantics, key, &matching.binds)?;
    let node = plain_node(&term);
    let width = key_width(semantics, table);
    let rows = program.rows(table).as_slice();
    Ok(any_row(
        alloc, d, semantics, vars, pattern, rows, node, width, matching,
    )?)
}

// The width of the keys of a table.
fn key_width<S: Side>(semantics: &Semantics<S>, table: TableId) -> u8
    requires { table.0 < length semantics.now.tables }
    ensures { option_map (λ t. t.key) (slice_get semantics.now.tables table.0) ≡ Some result }
{
    match semantics.tables().get(table.0) {
        Some(table) => table.key,
        None => unreachable!(),
    }
}

// A pattern against the terms of rows, where the row's key is the word that the node means.
fn any_row<S: Side, D: Domain>(
    alloc: Global,
    d: &mut D,
    semantics: &Semantics<S>,
    vars: &Vars,
    pattern: &Pattern,
    rows: &[Row],
    node: &D::Node,
    width: u8,
    matching: &Matching<D::Node>,
) -> Result<Matchings<D::Node>, NoMemory>
    requires rows { All (IsRowFor semantics.now.cons width (pattern_sort semantics.now.cons vars.now pattern.now)) rows.now }
    requires node { node_sort (D.look d.old node.now) ≡ Some (DataOf (BitsSort width)) }
    requires pattern { IsSome (pattern_sort semantics.now.cons vars.now pattern.now) }
    requires matching { IsMatching semantics.now.cons vars.now (seen_matching (D.look d.old) matching.now) }
    requires repeats { RebindsOnlyScalars vars.now (seen_matching (D.look d.old) matching.now).binds (λ i. times i pattern.now) }
    ensures extends { Extends (D.look d.old) (D.look d.new) }
    ensures same_variables { D.variables d.new ≡ D.variables d.old }
    ensures matchings { IfOk result
        (λ ms. GoOn (scope_of semantics.now.cons vars.now (D.variables d.old))
        (seen_matching (D.look d.old) matching.now) (λ i. times i pattern.now)
        (λ v w. Any (ReadsRow (D.look d.old node.now) pattern.now v w) rows.now)
        (seen_matchings (D.look d.new) ms)) }
{
    let mut matchings = Items::new(alloc);
    for row in rows {
        let more = row_read(
            alloc, d, semantics, vars, pattern, row, node, width, matching,
        )?;
        matchings.append(more)?;
    }
    Ok(matchings)
}

// A pattern against the term of a row, where the row's key is the word that the node means.
fn row_read<S: Side, D: Domain>(
    alloc: Global,
    d: &mut D,
    semantics: &Semantics<S>,
    vars: &Vars,
    pattern: &Pattern,
    row: &Row,
    node: &D::Node,
    width: u8,
    matching: &Matching<D::Node>,
) -> Result<Matchings<D::Node>, NoMemory>
    requires node { node_sort (D.look d.old node.now) ≡ Some (DataOf (BitsSort width)) }
    requires pattern { IsSome (pattern_sort semantics.now.cons vars.now pattern.now) }
    requires row { IsRowFor semantics.now.cons width (pattern_sort semantics.now.cons vars.now pattern.now) row.now }
    requires matching { IsMatching semantics.now.cons vars.now (seen_matching (D.look d.old) matching.now) }
    requires repeats { RebindsOnlyScalars vars.now (seen_matching (D.look d.old) matching.now).binds (λ i. times i pattern.now) }
    ensures extends { Extends (D.look d.old) (D.look d.new) }
    ensures same_variables { D.variables d.new ≡ D.variables d.old }
    ensures matchings { IfOk result
        (λ ms. GoOn (scope_of semantics.now.cons vars.now (D.variables d.old))
        (seen_matching (D.look d.old) matching.now) (λ i. times i pattern.now)
        (λ v w. ReadsRow (D.look d.old node.now) pattern.now v w row.now)
        (seen_matchings (D.look d.new) ms)) }
{
    let test = key_test(alloc, d, node, width, row.key)?;
    match supposed(alloc, d, &test, matching)? {
        Some(more) => {
            let term = constant_term(alloc, d, semantics, &row.term)?;
            Ok(joined(alloc, d, semantics, vars, pattern, &term, more)?)
        }
        None => Ok(Items::new(alloc)),
    }
}
