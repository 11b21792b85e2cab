// Whether an item names only what is known, and gives a new name.
ghost use Rattle.std.specs.Prelude.{◌≡◌, ◌↔◌, ◌||◌, IsTrue, IfOk, All, map};
ghost use Rattle.name_resolution.specs.Known.{vocabulary_of, vocabulary_in};
ghost use Rattle.name_resolution.specs.Names.{IsNew};
ghost use Rattle.name_resolution.specs.Named.{is_named_tree, is_named_sort};
ghost use Rattle.sync_points.specs.Names.{HasNames, ArePartsNamed, IsCutNamed, IsPointNamed, AreTermsNamed, AreNamesIf, vars_in};

use crate::draft::PointsDraft;
use name_resolution::{
    Known, NameTable, are_sorts_named, is_named_sort, is_named_tree, variable_names,
};
use no_memory::NoMemory;
use rule_text::{Item, RawTree, RawVar};
use sexp_text::Name;
use std::alloc::Global;

/// The names of the variables of an item that has its names; None where it has not.
pub fn names_in(
    alloc: Global,
    draft: &PointsDraft<'_>,
    item: &Item,
) -> Result<Option<NameTable>, NoMemory>
    ensures { IfOk result (AreNamesIf (HasNames draft.now item.now) (vars_in item.now)) }
{
    match item {
        Item::Cut {
            left,
            name,
            vars,
            pattern,
            whens,
        } => {
            let (vars, whens) = (vars.as_slice(), whens.as_slice());
            if *left {
                let (known, taken) = (draft.left_known(), draft.left_names());
                cut_names(alloc, &known, taken, name, vars, pattern, whens)
            } else {
                let (known, taken) = (draft.right_known(), draft.right_names());
                cut_names(alloc, &known, taken, name, vars, pattern, whens)
            }
        }
        Item::Point {
            name,
            vars,
            left,
            right,
            whens,
        } => {
            let (vars, whens) = (vars.as_slice(), whens.as_slice());
            point_names(alloc, draft, name, vars, left, right, whens)
        }
        _ => Ok(Some(NameTable::new(alloc))),
    }
}

// The names of the variables of an item of a cut, where the item has its names.
fn cut_names(
    alloc: Global,
    known: &Known<'_>,
    taken: &NameTable,
    name: &Name,
    vars: &[RawVar],
    pattern: &RawTree,
    whens: &[RawTree],
) -> Result<Option<NameTable>, NoMemory>
    ensures { IfOk result (AreNamesIf (IsNew name.now taken.now × IsCutNamed (vocabulary_of known.now) vars.now pattern.now whens.now) vars.now) }
{
    if !taken.is_new(name) || !are_sorts_named(known, vars) {
        return Ok(None);
    }
    let Some(names) = variable_names(alloc, vars)? else {
        return Ok(None);
    };
    if are_parts_named(known, &names, pattern, whens) {
        Ok(Some(names))
    } else {
        drop(names);
        Ok(None)
    }
}

// Whether the pattern and the conditions of an item of a cut name only these variables and what is known.
fn are_parts_named(
    known: &Known<'_>,
    names: &NameTable,
    pattern: &RawTree,
    whens: &[RawTree],
) -> bool
    ensures { IsTrue result ↔ ArePartsNamed (vocabulary_of known.now) names.now pattern.now whens.now }
{
    is_named_tree(known, names, pattern) && are_trees_named(known, names, whens)
}

// The names of the variables of a point, where the point has its names.
fn point_names(
    alloc: Global,
    draft: &PointsDraft<'_>,
    name: &Name,
    vars: &[RawVar],
    left: &RawTree,
    right: &RawTree,
    whens: &[RawTree],
) -> Result<Option<NameTable>, NoMemory>
    ensures { IfOk result (AreNamesIf (IsNew name.now (map (λ p. p.name) draft.now.points.points) × IsPointNamed (vocabulary_in draft.now.left) (vocabulary_in draft.now.right) vars.now left.now right.now whens.now) vars.now) }
{
    if !draft.point_names().is_new(name)
        || !are_sorts_of_either(&draft.left_known(), &draft.right_known(), vars)
    {
        return Ok(None);
    }
    let Some(names) = variable_names(alloc, vars)? else {
        return Ok(None);
    };
    if are_terms_named(draft, &names, left, right, whens) {
        Ok(Some(names))
    } else {
        drop(names);
        Ok(None)
    }
}

// Whether trees name only these variables and what is known.
fn are_trees_named(known: &Known<'_>, names: &NameTable, raws: &[RawTree]) -> bool
    ensures { IsTrue result ↔ All (λ e. IsTrue (is_named_tree (vocabulary_of known.now) names.now e)) raws.now }
{
    raws.iter().all(|raw| is_named_tree(known, names, raw))
}

// Whether variables have sorts that one side knows.
fn are_sorts_of_either(left: &Known<'_>, right: &Known<'_>, vars: &[RawVar]) -> bool
    ensures { IsTrue result ↔ All (λ x. IsTrue (is_named_sort (vocabulary_of left.now) x.sort || is_named_sort (vocabulary_of right.now) x.sort)) vars.now }
{
    vars.iter().all(|var| is_named_sort(left, &var.sort) || is_named_sort(right, &var.sort))
}

// Whether the terms and the conditions of a point do.
fn are_terms_named(
    draft: &PointsDraft<'_>,
    names: &NameTable,
    left: &RawTree,
    right: &RawTree,
    whens: &[RawTree],
) -> bool
    ensures { IsTrue result ↔ AreTermsNamed (vocabulary_in draft.now.left) (vocabulary_in draft.now.right) names.now left.now right.now whens.now }
{
    is_named_tree(&draft.left_known(), names, left)
        && is_named_tree(&draft.right_known(), names, right)
        && are_trees_named(&draft.none_known(), names, whens)
}
