// The shapes of items.
ghost use Rattle.std.specs.Prelude.{◌≡◌, ◌≢◌, Bool, List, map, codes, IsErrOf, IsNone, IfOk, IfErr, IfSome};
ghost use Rattle.sexp_text.specs.Printed.{without_spans};
ghost use Rattle.rule_text.specs.Plain.{plain_word};
ghost use Rattle.rule_text.specs.Refused.{RefusedOnlyIfNone};
ghost use Rattle.rule_text.specs.Shapes.{IsShapeError, IsItemsError};
ghost use Rattle.rule_text.specs.Writes.{
  WritesOpening,
  WritesGuarded,
  WritesOutcome,
  WritesRuleBody,
  WritesPointBody,
  WritesParts,
  WritesItem,
  WritesItems,
};
ghost use Rattle.rule_text.specs.Written.{side_word};
ghost use Rattle.rule_text.specs.declared.item.RawDemand.{RawDemand};
ghost use Rattle.rule_text.specs.declared.item.RawTree.{RawTree};

use crate::error::{ItemError, ItemFault, LoadError, LoadFault};
use crate::forms::{behind, is_word, number, word};
use crate::item::{FileKind, Item, ItemList, RawDemands, RawTree, RawTrees, RawVars};
use crate::parts::{demands, sort, sorts, vars, whens};
use crate::refused::ShapeError;
use crate::tree::{Place, tree};
use sexp_text::{Form, Name};
use sqlite_items::Items;
use std::alloc::Global;

/// The items that the forms of a text's top level write, which are the only ones ([`crate::items_are_unique`]). Else the
/// answer is the first form of no shape, or that there was no memory.
pub fn items(alloc: Global, kind: FileKind, forms: &[Form]) -> Result<ItemList, LoadError>
    ensures ok { IfOk result (WritesItems kind forms.now) }
    ensures fault { IfErr result (IsItemsError kind forms.now) }
{
    if kind == FileKind::Start {
        return start_items(alloc, forms);
    }
    all_items(alloc, kind, forms)
}

// The items of a text that may have many.
fn all_items(alloc: Global, kind: FileKind, forms: &[Form]) -> Result<ItemList, LoadError>
    requires many { kind ≢ FileKind.Start }
    ensures ok { IfOk result (WritesItems kind forms.now) }
    ensures fault { IfErr result (IsItemsError kind forms.now) }
{
    let mut items = Items::new(alloc);
    for k in 0..forms.len() {
        match read_item(alloc, kind, &forms[k]) {
            Ok(item) => items.push(item)?,
            Err(error) => return Err(error.in_item(k + 1)),
        }
    }
    Ok(items)
}

// The one item of a start text.
fn start_items(alloc: Global, forms: &[Form]) -> Result<ItemList, LoadError>
    ensures ok { IfOk result (WritesItems FileKind.Start forms.now) }
    ensures fault { IfErr result (IsItemsError FileKind.Start forms.now) }
{
    let [form, rest @ ..] = forms else {
        return Err(LoadError::Fault(LoadFault::Shape { item: 1 }));
    };
    let item = match read_item(alloc, FileKind::Start, form) {
        Ok(item) => item,
        Err(error) => return Err(error.in_item(1)),
    };
    if !rest.is_empty() {
        drop(item);
        return Err(LoadError::Fault(LoadFault::Shape { item: 2 }));
    }
    let mut items = Items::new(alloc);
    items.push(item)?;
    Ok(items)
}

/// The item that a form writes, which is the only one ([`crate::forms_write_one_item`]). Else the answer is that it is the
/// form of none, or that there was no memory.
pub fn read_item(alloc: Global, kind: FileKind, form: &Form) -> Result<Item, ItemError>
    ensures ok { IfOk result (WritesItem kind (without_spans form.now)) }
    ensures fault { IfErr result (IsShapeError kind (without_spans form.now)) }
{
    match item(alloc, kind, form) {
        Ok(item) => Ok(item),
        Err(ShapeError::NoItem) => Err(ItemError::Fault(ItemFault::Shape)),
        Err(ShapeError::NoMemory) => Err(ItemError::NoMemory),
    }
}

fn item(alloc: Global, kind: FileKind, form: &Form) -> Result<Item, ShapeError>
    ensures ok { IfOk result (WritesItem kind (without_spans form.now)) }
    ensures refused { RefusedOnlyIfNone result (WritesItem kind (without_spans form.now)) }
{
    match kind {
        FileKind::Semantics => semantics_item(alloc, form),
        FileKind::Program => program_item(alloc, form),
        FileKind::Points => points_item(alloc, form),
        FileKind::Start => start_item(alloc, form),
    }
}

fn semantics_item(alloc: Global, form: &Form) -> Result<Item, ShapeError>
    ensures ok { IfOk result (WritesItem FileKind.Semantics (without_spans form.now)) }
    ensures refused { RefusedOnlyIfNone result (WritesItem FileKind.Semantics (without_spans form.now)) }
{
    if let Some(parts) = behind(form, "sort") {
        return sort_item(alloc, parts);
    }
    if let Some(parts) = behind(form, "con") {
        return con_item(alloc, parts);
    }
    if let Some(parts) = behind(form, "table") {
        return table_item(alloc, parts);
    }
    if let Some(parts) = behind(form, "config") {
        return config_item(alloc, parts);
    }
    if let Some(parts) = behind(form, "rule") {
        return rule_item(alloc, parts);
    }
    Err(ShapeError::NoItem)
}

fn program_item(alloc: Global, form: &Form) -> Result<Item, ShapeError>
    ensures ok { IfOk result (WritesItem FileKind.Program (without_spans form.now)) }
    ensures refused { RefusedOnlyIfNone result (WritesItem FileKind.Program (without_spans form.now)) }
{
    if let Some(parts) = behind(form, "row") {
        return row_item(alloc, parts);
    }
    Err(ShapeError::NoItem)
}

fn points_item(alloc: Global, form: &Form) -> Result<Item, ShapeError>
    ensures ok { IfOk result (WritesItem FileKind.Points (without_spans form.now)) }
    ensures refused { RefusedOnlyIfNone result (WritesItem FileKind.Points (without_spans form.now)) }
{
    if let Some(parts) = behind(form, "cut") {
        return cut_item(alloc, parts);
    }
    if let Some(parts) = behind(form, "point") {
        return point_item(alloc, parts);
    }
    Err(ShapeError::NoItem)
}

fn start_item(alloc: Global, form: &Form) -> Result<Item, ShapeError>
    ensures ok { IfOk result (WritesItem FileKind.Start (without_spans form.now)) }
    ensures refused { RefusedOnlyIfNone result (WritesItem FileKind.Start (without_spans form.now)) }
{
    let term = tree(alloc, Place::Ground, form)?;
    Ok(Item::Start(term))
}

fn sort_item(alloc: Global, parts: &[Form]) -> Result<Item, ShapeError>
    ensures ok { IfOk result (WritesParts FileKind.Semantics (codes "sort") (map without_spans parts.now)) }
    ensures refused { RefusedOnlyIfNone result (WritesParts FileKind.Semantics (codes "sort") (map without_spans parts.now)) }
{
    let [name] = parts else {
        return Err(ShapeError::NoItem);
    };
    let name = word(alloc, name)?;
    Ok(Item::Sort(name))
}

fn con_item(alloc: Global, parts: &[Form]) -> Result<Item, ShapeError>
    ensures ok { IfOk result (WritesParts FileKind.Semantics (codes "con") (map without_spans parts.now)) }
    ensures refused { RefusedOnlyIfNone result (WritesParts FileKind.Semantics (codes "con") (map without_spans parts.now)) }
{
    let [name, args, sort] = parts else {
        return Err(ShapeError::NoItem);
    };
    let name = word(alloc, name)?;
    let args = sorts(alloc, args)?;
    let sort = word(alloc, sort)?;
    Ok(Item::Con { name, args, sort })
}

fn table_item(alloc: Global, parts: &[Form]) -> Result<Item, ShapeError>
    ensures ok { IfOk result (WritesParts FileKind.Semantics (codes "table") (map without_spans parts.now)) }
    ensures refused { RefusedOnlyIfNone result (WritesParts FileKind.Semantics (codes "table") (map without_spans parts.now)) }
{
    let [name, key, written] = parts else {
        return Err(ShapeError::NoItem);
    };
    let Some(key) = number(key) else {
        return Err(ShapeError::NoItem);
    };
    let name = word(alloc, name)?;
    let sort = sort(alloc, written)?;
    Ok(Item::Table { name, key, sort })
}

fn config_item(alloc: Global, parts: &[Form]) -> Result<Item, ShapeError>
    ensures ok { IfOk result (WritesParts FileKind.Semantics (codes "config") (map without_spans parts.now)) }
    ensures refused { RefusedOnlyIfNone result (WritesParts FileKind.Semantics (codes "config") (map without_spans parts.now)) }
{
    let [name] = parts else {
        return Err(ShapeError::NoItem);
    };
    let name = word(alloc, name)?;
    Ok(Item::Config(name))
}

fn rule_item(alloc: Global, parts: &[Form]) -> Result<Item, ShapeError>
    ensures ok { IfOk result (WritesParts FileKind.Semantics (codes "rule") (map without_spans parts.now)) }
    ensures refused { RefusedOnlyIfNone result (WritesParts FileKind.Semantics (codes "rule") (map without_spans parts.now)) }
{
    let [name, variables, head, rest @ ..] = parts else {
        return Err(ShapeError::NoItem);
    };
    let (name, vars) = opening(alloc, name, variables)?;
    match rule_body(alloc, head, rest) {
        Ok((head, (demands, outcome))) => Ok(Item::Rule {
            name,
            vars,
            head,
            demands,
            outcome,
        }),
        Err(error) => {
            drop((name, vars));
            Err(error)
        }
    }
}

// The name and the variables that a rule, a cut or a point begins with.
fn opening(alloc: Global, name: &Form, variables: &Form) -> Result<(Name, RawVars), ShapeError>
    ensures ok { IfOk result (WritesOpening (without_spans name.now) (without_spans variables.now)) }
    ensures refused { RefusedOnlyIfNone result (WritesOpening (without_spans name.now) (without_spans variables.now)) }
{
    let name = word(alloc, name)?;
    match vars(alloc, variables) {
        Ok(vars) => Ok((name, vars)),
        Err(error) => {
            drop(name);
            Err(error)
        }
    }
}

// The head of a rule, with its demands and its result.
fn rule_body(
    alloc: Global,
    head: &Form,
    rest: &[Form],
) -> Result<(RawTree, (RawDemands, RawTree)), ShapeError>
    ensures ok { IfOk result (WritesRuleBody (without_spans head.now) (map without_spans rest.now)) }
    ensures refused { RefusedOnlyIfNone result (WritesRuleBody (without_spans head.now) (map without_spans rest.now)) }
{
    let head = tree(alloc, Place::Pattern, head)?;
    match outcome(alloc, rest) {
        Ok(end) => Ok((head, end)),
        Err(error) => {
            drop(head);
            Err(error)
        }
    }
}

// The demands of a rule, and its result behind `=>`.
fn outcome(alloc: Global, forms: &[Form]) -> Result<(RawDemands, RawTree), ShapeError>
    ensures ok { IfOk result (λ end. WritesOutcome (map without_spans forms.now) end.0 end.1) }
    ensures refused { IsErrOf result ShapeError.NoItem →
        (demands : List RawDemand) (outcome : RawTree) →
        ¬ WritesOutcome (map without_spans forms.now) demands outcome }
{
    let [front @ .., arrow, outcome] = forms else {
        return Err(ShapeError::NoItem);
    };
    if !is_word(arrow, "=>") {
        return Err(ShapeError::NoItem);
    }
    let demands = demands(alloc, front)?;
    match tree(alloc, Place::Expression, outcome) {
        Ok(outcome) => Ok((demands, outcome)),
        Err(error) => {
            drop(demands);
            Err(error)
        }
    }
}

fn row_item(alloc: Global, parts: &[Form]) -> Result<Item, ShapeError>
    ensures ok { IfOk result (WritesParts FileKind.Program (codes "row") (map without_spans parts.now)) }
    ensures refused { RefusedOnlyIfNone result (WritesParts FileKind.Program (codes "row") (map without_spans parts.now)) }
{
    let [table, key, term] = parts else {
        return Err(ShapeError::NoItem);
    };
    let Some(key) = number(key) else {
        return Err(ShapeError::NoItem);
    };
    let table = word(alloc, table)?;
    match tree(alloc, Place::Ground, term) {
        Ok(term) => Ok(Item::Row { table, key, term }),
        Err(error) => {
            drop(table);
            Err(error)
        }
    }
}

fn cut_item(alloc: Global, parts: &[Form]) -> Result<Item, ShapeError>
    ensures ok { IfOk result (WritesParts FileKind.Points (codes "cut") (map without_spans parts.now)) }
    ensures refused { RefusedOnlyIfNone result (WritesParts FileKind.Points (codes "cut") (map without_spans parts.now)) }
{
    let [side, name, variables, pattern, rest @ ..] = parts else {
        return Err(ShapeError::NoItem);
    };
    let Some(left) = is_left(side) else {
        return Err(ShapeError::NoItem);
    };
    let (name, vars) = opening(alloc, name, variables)?;
    match guarded(alloc, Place::Pattern, pattern, rest) {
        Ok((pattern, whens)) => Ok(Item::Cut {
            left,
            name,
            vars,
            pattern,
            whens,
        }),
        Err(error) => {
            drop((name, vars));
            Err(error)
        }
    }
}

// A tree with the conditions behind it.
fn guarded(
    alloc: Global,
    place: Place,
    form: &Form,
    rest: &[Form],
) -> Result<(RawTree, RawTrees), ShapeError>
    ensures ok { IfOk result (WritesGuarded place (without_spans form.now) (map without_spans rest.now)) }
    ensures refused { RefusedOnlyIfNone result (WritesGuarded place (without_spans form.now) (map without_spans rest.now)) }
{
    let tree = tree(alloc, place, form)?;
    match whens(alloc, rest) {
        Ok(whens) => Ok((tree, whens)),
        Err(error) => {
            drop(tree);
            Err(error)
        }
    }
}

// Whether a side is the left one, where it is a side.
fn is_left(form: &Form) -> Option<bool>
    ensures some { IfSome result (λ left. without_spans form.now ≡ plain_word (side_word left)) }
    ensures none { IsNone result → (left : Bool) → without_spans form.now ≢ plain_word (side_word left) }
{
    if is_word(form, "left") {
        return Some(true);
    }
    if is_word(form, "right") {
        return Some(false);
    }
    None
}

fn point_item(alloc: Global, parts: &[Form]) -> Result<Item, ShapeError>
    ensures ok { IfOk result (WritesParts FileKind.Points (codes "point") (map without_spans parts.now)) }
    ensures refused { RefusedOnlyIfNone result (WritesParts FileKind.Points (codes "point") (map without_spans parts.now)) }
{
    let [name, variables, left, right, rest @ ..] = parts else {
        return Err(ShapeError::NoItem);
    };
    let (name, vars) = opening(alloc, name, variables)?;
    match point_body(alloc, left, right, rest) {
        Ok((left, (right, whens))) => Ok(Item::Point {
            name,
            vars,
            left,
            right,
            whens,
        }),
        Err(error) => {
            drop((name, vars));
            Err(error)
        }
    }
}

// The left term of a point, with the right one and the conditions.
fn point_body(
    alloc: Global,
    left: &Form,
    right: &Form,
    rest: &[Form],
) -> Result<(RawTree, (RawTree, RawTrees)), ShapeError>
    ensures ok { IfOk result (WritesPointBody (without_spans left.now) (without_spans right.now) (map without_spans rest.now)) }
    ensures refused { RefusedOnlyIfNone result
        (WritesPointBody (without_spans left.now) (without_spans right.now) (map without_spans rest.now)) }
{
    let left = tree(alloc, Place::Expression, left)?;
    match guarded(alloc, Place::Expression, right, rest) {
        Ok(end) => Ok((left, end)),
        Err(error) => {
            drop(left);
            Err(error)
        }
    }
}
