// The shapes of sorts, variables, conditions and demands.
ghost use Rattle.std.specs.Prelude.{◌≡◌, [], ◌∷◌, map, codes, IfOk};
ghost use Rattle.sexp_text.specs.Printed.{without_spans};
ghost use Rattle.rule_text.specs.Plain.{plain_word, plain_list};
ghost use Rattle.rule_text.specs.Refused.{RefusedOnlyIfNone};
ghost use Rattle.rule_text.specs.Writes.{
  WritesSort,
  WritesSorts,
  WritesVar,
  WritesVars,
  WritesWhen,
  WritesWhens,
  WritesRow,
  WritesDemand,
  WritesDemands,
};

use crate::forms::{behind, is_word, list, number_pair, one_number, word};
use crate::item::{RawDemand, RawDemands, RawSort, RawSorts, RawTree, RawTrees, RawVar, RawVars};
use crate::refused::ShapeError;
use crate::tree::{Place, tree};
use sexp_text::{Form, Name};
use sqlite_items::Items;
use std::alloc::Global;

/// A sort.
pub fn sort(alloc: Global, form: &Form) -> Result<RawSort, ShapeError>
    ensures ok { IfOk result (WritesSort (without_spans form.now)) }
    ensures refused { RefusedOnlyIfNone result (WritesSort (without_spans form.now)) }
{
    if is_word(form, "bool") {
        return Ok(RawSort::Bool);
    }
    if let Some(parts) = behind(form, "bits") {
        return match one_number(parts) {
            Some(width) => Ok(RawSort::Bits(width)),
            None => Err(ShapeError::NoItem),
        };
    }
    if let Some(parts) = behind(form, "map") {
        return match number_pair(parts) {
            Some((key, word)) => Ok(RawSort::Map(key, word)),
            None => Err(ShapeError::NoItem),
        };
    }
    Ok(RawSort::Named(word(alloc, form)?))
}

/// The sorts of a list.
pub fn sorts(alloc: Global, form: &Form) -> Result<RawSorts, ShapeError>
    ensures ok { IfOk result (WritesSorts (without_spans form.now)) }
    ensures refused { RefusedOnlyIfNone result (WritesSorts (without_spans form.now)) }
{
    let Some(forms) = list(form) else {
        return Err(ShapeError::NoItem);
    };
    let mut sorts = Items::new(alloc);
    for form in forms {
        sorts.push(sort(alloc, form)?)?;
    }
    Ok(sorts)
}

// A variable with its sort.
fn var(alloc: Global, form: &Form) -> Result<RawVar, ShapeError>
    ensures ok { IfOk result (WritesVar (without_spans form.now)) }
    ensures refused { RefusedOnlyIfNone result (WritesVar (without_spans form.now)) }
{
    let Some(forms) = list(form) else {
        return Err(ShapeError::NoItem);
    };
    let [name, written] = forms else {
        return Err(ShapeError::NoItem);
    };
    let name = word(alloc, name)?;
    let sort = sort(alloc, written)?;
    Ok(RawVar { name, sort })
}

/// The variables of a list that begins with `vars`.
pub fn vars(alloc: Global, form: &Form) -> Result<RawVars, ShapeError>
    ensures ok { IfOk result (WritesVars (without_spans form.now)) }
    ensures refused { RefusedOnlyIfNone result (WritesVars (without_spans form.now)) }
{
    let Some(pairs) = behind(form, "vars") else {
        return Err(ShapeError::NoItem);
    };
    let mut vars = Items::new(alloc);
    for pair in pairs {
        vars.push(var(alloc, pair)?)?;
    }
    Ok(vars)
}

// The condition behind `when`.
fn when(alloc: Global, form: &Form) -> Result<RawTree, ShapeError>
    ensures ok { IfOk result (WritesWhen (without_spans form.now)) }
    ensures refused { RefusedOnlyIfNone result (WritesWhen (without_spans form.now)) }
{
    let Some(parts) = behind(form, "when") else {
        return Err(ShapeError::NoItem);
    };
    let [condition] = parts else {
        return Err(ShapeError::NoItem);
    };
    tree(alloc, Place::Expression, condition)
}

/// The conditions behind the other parts of a cut or a point.
pub fn whens(alloc: Global, forms: &[Form]) -> Result<RawTrees, ShapeError>
    ensures ok { IfOk result (WritesWhens (map without_spans forms.now)) }
    ensures refused { RefusedOnlyIfNone result (WritesWhens (map without_spans forms.now)) }
{
    let mut whens = Items::new(alloc);
    for form in forms {
        whens.push(when(alloc, form)?)?;
    }
    Ok(whens)
}

// The table and the key behind `row`.
fn row_key(alloc: Global, parts: &[Form]) -> Result<(Name, RawTree), ShapeError>
    ensures ok { IfOk result (WritesRow (map without_spans parts.now)) }
    ensures refused { RefusedOnlyIfNone result (WritesRow (map without_spans parts.now)) }
{
    let [table, key] = parts else {
        return Err(ShapeError::NoItem);
    };
    let table = word(alloc, table)?;
    match tree(alloc, Place::Expression, key) {
        Ok(key) => Ok((table, key)),
        Err(error) => {
            drop(table);
            Err(error)
        }
    }
}

// The demand whose pattern and source stand behind `let`.
fn let_demand(alloc: Global, parts: &[Form]) -> Result<RawDemand, ShapeError>
    ensures ok { IfOk result (WritesDemand (plain_list (plain_word (codes "let") ∷ map without_spans parts.now))) }
    ensures refused { RefusedOnlyIfNone result
        (WritesDemand (plain_list (plain_word (codes "let") ∷ map without_spans parts.now))) }
{
    let [pattern, source] = parts else {
        return Err(ShapeError::NoItem);
    };
    let pattern = tree(alloc, Place::Pattern, pattern)?;
    if let Some(row) = behind(source, "row") {
        return match row_key(alloc, row) {
            Ok((table, key)) => Ok(RawDemand::LetRow {
                pattern,
                table,
                key,
            }),
            Err(error) => {
                drop(pattern);
                Err(error)
            }
        };
    }
    match tree(alloc, Place::Expression, source) {
        Ok(source) => Ok(RawDemand::Let(pattern, source)),
        Err(error) => {
            drop(pattern);
            Err(error)
        }
    }
}

fn demand(alloc: Global, form: &Form) -> Result<RawDemand, ShapeError>
    ensures ok { IfOk result (WritesDemand (without_spans form.now)) }
    ensures refused { RefusedOnlyIfNone result (WritesDemand (without_spans form.now)) }
{
    if let Some(parts) = behind(form, "let") {
        return let_demand(alloc, parts);
    }
    let condition = when(alloc, form)?;
    Ok(RawDemand::When(condition))
}

/// The demands of a rule.
pub fn demands(alloc: Global, forms: &[Form]) -> Result<RawDemands, ShapeError>
    ensures ok { IfOk result (WritesDemands (map without_spans forms.now)) }
    ensures refused { RefusedOnlyIfNone result (WritesDemands (map without_spans forms.now)) }
{
    let mut demands = Items::new(alloc);
    for form in forms {
        demands.push(demand(alloc, form)?)?;
    }
    Ok(demands)
}
