// Whether an item names only what is known, and gives a new name.
ghost use Rattle.std.specs.Prelude.{◌≡◌, ◌↔◌, [], IsTrue, IfOk, All, if◌then◌else◌, Some, None};
ghost use Rattle.rule_text.specs.declared.item.Item.{Item};
ghost use Rattle.name_resolution.specs.Known.{vocabulary_of};
ghost use Rattle.name_resolution.specs.Names.{IsNew};
ghost use Rattle.name_resolution.specs.Named.{is_named_tree};
ghost use Rattle.semantics_load.specs.Names.{IsFreshName, IsDemandNamed, IsNamesIn, HasNames};

use crate::draft::SemanticsDraft;
use name_resolution::{
    Known, NameTable, are_sorts_named, is_named_sort, is_named_tree, variable_names,
};
use no_memory::NoMemory;
use rule_text::{Item, RawDemand, RawSort, RawTree, RawVar};
use sexp_text::Name;
use sort_term::is_reserved;
use std::alloc::Global;

/// The names of the variables of an item, where the item names only what is known and gives a new name; else None.
pub fn names(
    alloc: Global,
    draft: &SemanticsDraft,
    item: &Item,
) -> Result<Option<NameTable>, NoMemory>
    ensures { IfOk result (IsNamesIn draft.now item.now) }
{
    match item {
        Item::Sort(name) => Ok(no_names(alloc, is_sort_named(draft, name))),
        Item::Con { name, args, sort } => {
            Ok(no_names(alloc, is_con_named(draft, name, args.as_slice(), sort)))
        }
        Item::Table { name, key, sort } => {
            Ok(no_names(alloc, is_table_named(draft, name, *key, sort)))
        }
        Item::Config(name) => Ok(no_names(alloc, is_config_named(draft, name))),
        Item::Rule {
            name,
            vars,
            head,
            demands,
            outcome,
        } => rule_names(
            alloc,
            draft,
            name,
            vars.as_slice(),
            head,
            demands.as_slice(),
            outcome,
        ),
        Item::Row { .. } | Item::Cut { .. } | Item::Point { .. } | Item::Start(_) => {
            Ok(no_names(alloc, true))
        }
    }
}

// The names of no variables, where an item has its names.
fn no_names(alloc: Global, is_named: bool) -> Option<NameTable>
    ensures { result ≡ (if is_named then Some [] else None) }
{
    if is_named {
        Some(NameTable::new(alloc))
    } else {
        None
    }
}

// Whether a name is no reserved word, and none of these.
fn is_fresh(names: &NameTable, name: &Name) -> bool
    ensures { IsTrue result ↔ IsFreshName name.now names.now }
{
    !is_reserved(name.as_slice()) && names.is_new(name)
}

// Whether a sort has a new name.
fn is_sort_named(draft: &SemanticsDraft, name: &Name) -> bool
    ensures { IsTrue result ↔ HasNames draft.now (Item.Sort name.now) }
{
    is_fresh(draft.known().sort_names, name)
}

// Whether a constructor has its names.
fn is_con_named(draft: &SemanticsDraft, name: &Name, args: &[RawSort], sort: &Name) -> bool
    ensures { IsTrue result ↔ HasNames draft.now (Item.Con name.now args.now sort.now) }
{
    let known = draft.known();
    is_fresh(known.con_names, name)
        && args.iter().all(|arg| is_named_sort(&known, arg))
        && known.declared(sort).is_some()
}

// Whether a table has its names.
fn is_table_named(draft: &SemanticsDraft, name: &Name, key: u64, sort: &RawSort) -> bool
    ensures { IsTrue result ↔ HasNames draft.now (Item.Table name.now key sort.now) }
{
    let known = draft.known();
    is_fresh(known.table_names, name) && is_named_sort(&known, sort)
}

// Whether the sort of the states is told here first, and declared.
fn is_config_named(draft: &SemanticsDraft, name: &Name) -> bool
    ensures { IsTrue result ↔ HasNames draft.now (Item.Config name.now) }
{
    draft.config().is_none() && draft.known().declared(name).is_some()
}

// The names of the variables of a rule, where it has its names.
fn rule_names(
    alloc: Global,
    draft: &SemanticsDraft,
    name: &Name,
    vars: &[RawVar],
    head: &RawTree,
    demands: &[RawDemand],
    outcome: &RawTree,
) -> Result<Option<NameTable>, NoMemory>
    ensures { IfOk result (IsNamesIn draft.now (Item.Rule name.now vars.now head.now demands.now outcome.now)) }
{
    if draft.config().is_none() || !draft.is_new_rule(name) {
        return Ok(None);
    }
    let Some(names) = variable_names(alloc, vars)? else {
        return Ok(None);
    };
    let known = draft.known();
    if are_sorts_named(&known, vars) && are_terms_named(&known, &names, head, demands, outcome) {
        Ok(Some(names))
    } else {
        drop(names);
        Ok(None)
    }
}

// Whether the terms of a rule name only what is known.
fn are_terms_named(
    known: &Known<'_>,
    names: &NameTable,
    head: &RawTree,
    demands: &[RawDemand],
    outcome: &RawTree,
) -> bool
    ensures { IsTrue result ↔
        (IsTrue (is_named_tree (vocabulary_of known.now) names.now head.now)
        × All (IsDemandNamed (vocabulary_of known.now) names.now) demands.now
        × IsTrue (is_named_tree (vocabulary_of known.now) names.now outcome.now)) }
{
    is_named_tree(known, names, head)
        && demands
            .iter()
            .all(|demand| is_demand_named(known, names, demand))
        && is_named_tree(known, names, outcome)
}

// Whether a demand does.
fn is_demand_named(known: &Known<'_>, names: &NameTable, demand: &RawDemand) -> bool
    ensures { IsTrue result ↔ IsDemandNamed (vocabulary_of known.now) names.now demand.now }
{
    match demand {
        RawDemand::Let(pattern, source) => {
            is_named_tree(known, names, pattern) && is_named_tree(known, names, source)
        }
        RawDemand::LetRow {
            pattern,
            table,
            key,
        } => {
            is_named_tree(known, names, pattern)
                && known.table(table).is_some()
                && is_named_tree(known, names, key)
        }
        RawDemand::When(condition) => is_named_tree(known, names, condition),
    }
}
