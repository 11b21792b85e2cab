// What an item says.
ghost use Rattle.std.specs.Prelude.{◌≡◌, ◌↔◌, IsTrue, IfOk, map, Some};
ghost use Rattle.rule_text.specs.declared.item.Item.{Item};
ghost use Rattle.sort_term.specs.Sorted.{all_there};
ghost use Rattle.name_resolution.specs.Known.{vocabulary_of, sort_of};
ghost use Rattle.name_resolution.specs.Variables.{names_of};
ghost use Rattle.name_resolution.specs.Reads.{pattern_of, expression_of, variables_of};
ghost use Rattle.semantics_load.specs.Pieces.{both_from, demand_of, demands_of, rule_from, names_in, piece_of};
ghost use Rattle.semantics_load.specs.Loads.{IsSemanticsItem};

use crate::draft::SemanticsDraft;
use crate::piece::Piece;
use name_resolution::{Known, NameTable, is_width, read_tree, variables};
use no_memory::NoMemory;
use rule_text::{Item, RawDemand, RawSort, RawTree, RawVar};
use sexp_text::Name;
use sort_term::{Con, Demand, Demands, Pattern, Rule, RuleExpr, Sorts, Source, Table, Vars};
use sqlite_items::Items;
use std::alloc::Global;

/// Whether an item is one of a semantics. It takes no memory.
pub fn is_semantics_item(item: &Item) -> bool
    ensures { IsTrue result ↔ IsSemanticsItem item.now }
{
    match item {
        Item::Sort(_)
        | Item::Con { .. }
        | Item::Table { .. }
        | Item::Config(_)
        | Item::Rule { .. } => true,
        Item::Row { .. } | Item::Cut { .. } | Item::Point { .. } | Item::Start(_) => false,
    }
}

/// What an item says, where these are the names of its variables; None where it says nothing.
pub fn piece(
    alloc: Global,
    draft: &SemanticsDraft,
    names: &NameTable,
    item: &Item,
) -> Result<Option<Piece>, NoMemory>
    requires names { names.now ≡ names_in item.now }
    ensures { IfOk result (λ p. p ≡ piece_of draft.now item.now) }
{
    match item {
        Item::Sort(name) => Ok(Some(Piece::Sort(name.copy(alloc)?))),
        Item::Con { name, args, sort } => con_piece(alloc, draft, name, args.as_slice(), sort),
        Item::Table { name, key, sort } => table_piece(alloc, draft, name, *key, sort),
        Item::Config(name) => Ok(config_piece(draft, name)),
        Item::Rule {
            name,
            vars,
            head,
            demands,
            outcome,
        } => rule_piece(
            alloc,
            draft,
            names,
            name,
            vars.as_slice(),
            head,
            demands.as_slice(),
            outcome,
        ),
        Item::Row { .. } | Item::Cut { .. } | Item::Point { .. } | Item::Start(_) => Ok(None),
    }
}

// A constructor.
fn con_piece(
    alloc: Global,
    draft: &SemanticsDraft,
    name: &Name,
    args: &[RawSort],
    sort: &Name,
) -> Result<Option<Piece>, NoMemory>
    ensures { IfOk result (λ p. p ≡ piece_of draft.now (Item.Con name.now args.now sort.now)) }
{
    let known = draft.known();
    let Some(args) = argument_sorts(alloc, &known, args)? else {
        return Ok(None);
    };
    let Some(sort) = known.declared(sort) else {
        drop(args);
        return Ok(None);
    };
    match name.copy(alloc) {
        Ok(name) => Ok(Some(Piece::Con(Con { name, args, sort }))),
        Err(error) => {
            drop(args);
            Err(error)
        }
    }
}

// The sorts of the arguments of a constructor; None where one is no sort.
fn argument_sorts(
    alloc: Global,
    known: &Known<'_>,
    raws: &[RawSort],
) -> Result<Option<Sorts>, NoMemory>
    ensures { IfOk result (λ sorts. sorts ≡ all_there (map (sort_of (vocabulary_of known.now)) raws.now)) }
{
    let mut sorts = Items::new(alloc);
    for raw in raws {
        let Some(sort) = known.sort(raw) else {
            return Ok(None);
        };
        sorts.push(sort)?;
    }
    Ok(Some(sorts))
}

// A table.
fn table_piece(
    alloc: Global,
    draft: &SemanticsDraft,
    name: &Name,
    key: u64,
    sort: &RawSort,
) -> Result<Option<Piece>, NoMemory>
    ensures { IfOk result (λ p. p ≡ piece_of draft.now (Item.Table name.now key sort.now)) }
{
    let Some(sort) = draft.known().sort(sort) else {
        return Ok(None);
    };
    if !is_width(key) {
        return Ok(None);
    }
    let name = name.copy(alloc)?;
    Ok(Some(Piece::Table(Table {
        name,
        key: key as u8,
        sort,
    })))
}

// The sort of the states.
fn config_piece(draft: &SemanticsDraft, name: &Name) -> Option<Piece>
    ensures { result ≡ piece_of draft.now (Item.Config name.now) }
{
    match draft.known().declared(name) {
        Some(sort) => Some(Piece::Config(sort)),
        None => None,
    }
}

// A rule.
fn rule_piece(
    alloc: Global,
    draft: &SemanticsDraft,
    names: &NameTable,
    name: &Name,
    vars: &[RawVar],
    head: &RawTree,
    demands: &[RawDemand],
    outcome: &RawTree,
) -> Result<Option<Piece>, NoMemory>
    requires names { names.now ≡ names_of vars.now }
    ensures { IfOk result (λ p. p ≡ piece_of draft.now (Item.Rule name.now vars.now head.now demands.now outcome.now)) }
{
    let known = draft.known();
    let Some(front) = read_front(alloc, &known, names, vars, head)? else {
        return Ok(None);
    };
    match read_end(alloc, &known, names, demands, outcome) {
        Ok(Some(end)) => {
            let rule = named_rule(alloc, name, front, end)?;
            Ok(Some(Piece::Rule(rule)))
        }
        Ok(None) => {
            drop(front);
            Ok(None)
        }
        Err(error) => {
            drop(front);
            Err(error)
        }
    }
}

// The variables and the head of a rule; None where one of them is none.
fn read_front(
    alloc: Global,
    known: &Known<'_>,
    names: &NameTable,
    vars: &[RawVar],
    head: &RawTree,
) -> Result<Option<(Vars, Pattern)>, NoMemory>
    ensures { IfOk result (λ front. front ≡ both_from
        (variables_of (vocabulary_of known.now) vars.now) (pattern_of (vocabulary_of known.now) names.now head.now)) }
{
    let Some(vars) = variables(alloc, known, vars)? else {
        return Ok(None);
    };
    match read_tree::<Pattern>(alloc, known, names, head) {
        Ok(Some(head)) => Ok(Some((vars, head))),
        Ok(None) => {
            drop(vars);
            Ok(None)
        }
        Err(error) => {
            drop(vars);
            Err(error)
        }
    }
}

// The demands and the result of a rule; None where one of them is none.
fn read_end(
    alloc: Global,
    known: &Known<'_>,
    names: &NameTable,
    demands: &[RawDemand],
    outcome: &RawTree,
) -> Result<Option<(Demands, RuleExpr)>, NoMemory>
    ensures { IfOk result (λ end. end ≡ both_from
        (demands_of (vocabulary_of known.now) names.now demands.now)
        (expression_of (vocabulary_of known.now) names.now outcome.now)) }
{
    let Some(demands) = read_demands(alloc, known, names, demands)? else {
        return Ok(None);
    };
    match read_tree::<RuleExpr>(alloc, known, names, outcome) {
        Ok(Some(result)) => Ok(Some((demands, result))),
        Ok(None) => {
            drop(demands);
            Ok(None)
        }
        Err(error) => {
            drop(demands);
            Err(error)
        }
    }
}

// The rule of these parts, with a copy of its name.
fn named_rule(
    alloc: Global,
    name: &Name,
    front: (Vars, Pattern),
    end: (Demands, RuleExpr),
) -> Result<Rule, NoMemory>
    ensures { IfOk result (λ rule. Some rule ≡ rule_from name.now (Some front.0) (Some front.1) (Some end.0) (Some end.1)) }
{
    match name.copy(alloc) {
        Ok(name) => {
            let (vars, head) = front;
            let (demands, result) = end;
            Ok(Rule {
                name,
                vars,
                head,
                demands,
                result,
            })
        }
        Err(error) => {
            drop((front, end));
            Err(error)
        }
    }
}

// The demands of a rule; None where one is none.
fn read_demands(
    alloc: Global,
    known: &Known<'_>,
    names: &NameTable,
    raws: &[RawDemand],
) -> Result<Option<Demands>, NoMemory>
    ensures { IfOk result (λ demands. demands ≡ demands_of (vocabulary_of known.now) names.now raws.now) }
{
    let mut demands = Items::new(alloc);
    for raw in raws {
        let Some(demand) = read_demand(alloc, known, names, raw)? else {
            return Ok(None);
        };
        demands.push(demand)?;
    }
    Ok(Some(demands))
}

// A demand of a rule; None where it is none.
fn read_demand(
    alloc: Global,
    known: &Known<'_>,
    names: &NameTable,
    raw: &RawDemand,
) -> Result<Option<Demand>, NoMemory>
    ensures { IfOk result (λ demand. demand ≡ demand_of (vocabulary_of known.now) names.now raw.now) }
{
    match raw {
        RawDemand::Let(pattern, source) => read_let(alloc, known, names, pattern, source),
        RawDemand::LetRow {
            pattern,
            table,
            key,
        } => read_let_row(alloc, known, names, pattern, table, key),
        RawDemand::When(condition) => read_when(alloc, known, names, condition),
    }
}

// A `let`.
fn read_let(
    alloc: Global,
    known: &Known<'_>,
    names: &NameTable,
    pattern: &RawTree,
    source: &RawTree,
) -> Result<Option<Demand>, NoMemory>
    ensures { IfOk result (λ demand. demand ≡ demand_of (vocabulary_of known.now) names.now (RawDemand.Let pattern.now source.now)) }
{
    let Some(pattern) = read_tree::<Pattern>(alloc, known, names, pattern)? else {
        return Ok(None);
    };
    let Some(source) = read_tree::<RuleExpr>(alloc, known, names, source)? else {
        return Ok(None);
    };
    Ok(Some(Demand::Let(pattern, Source::Expr(source))))
}

// A `let` that reads a table.
fn read_let_row(
    alloc: Global,
    known: &Known<'_>,
    names: &NameTable,
    pattern: &RawTree,
    table: &Name,
    key: &RawTree,
) -> Result<Option<Demand>, NoMemory>
    ensures { IfOk result (λ demand. demand ≡ demand_of (vocabulary_of known.now) names.now (RawDemand.LetRow pattern.now table.now key.now)) }
{
    let Some(pattern) = read_tree::<Pattern>(alloc, known, names, pattern)? else {
        return Ok(None);
    };
    let Some((table, _)) = known.table(table) else {
        drop(pattern);
        return Ok(None);
    };
    match read_tree::<RuleExpr>(alloc, known, names, key) {
        Ok(Some(key)) => Ok(Some(Demand::Let(pattern, Source::Row(table, key)))),
        Ok(None) => {
            drop(pattern);
            Ok(None)
        }
        Err(error) => {
            drop(pattern);
            Err(error)
        }
    }
}

// A condition.
fn read_when(
    alloc: Global,
    known: &Known<'_>,
    names: &NameTable,
    condition: &RawTree,
) -> Result<Option<Demand>, NoMemory>
    ensures { IfOk result (λ demand. demand ≡ demand_of (vocabulary_of known.now) names.now (RawDemand.When condition.now)) }
{
    match read_tree::<RuleExpr>(alloc, known, names, condition)? {
        Some(condition) => Ok(Some(Demand::When(condition))),
        None => Ok(None),
    }
}
