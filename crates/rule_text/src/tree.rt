// The shapes of patterns, expressions and ground terms.
ghost use Rattle.std.specs.Prelude.{
  ◌≡◌,
  ◌≢◌,
  ◌≤◌,
  ◌+◌,
  ◌-◌,
  ℕ,
  Bool,
  [],
  ◌∷◌,
  ◌++◌,
  map,
  length,
  codes,
  IsNone,
  IsOk,
  IsOkAnd,
  IsErrOf,
  IfOk,
  IfSome,
};
ghost use Rattle.std.specs.List.{AllPass};
ghost use Rattle.sexp_text.specs.Printed.{without_spans};
ghost use Rattle.rule_text.specs.Lawful.{is_lawful_tree};
ghost use Rattle.rule_text.specs.Plain.{plain_word, plain_number, plain_list};
ghost use Rattle.rule_text.specs.Refused.{RefusedOnlyIfNone};
ghost use Rattle.rule_text.specs.Writes.{IsHead, WritesTree, WritesFront};
ghost use Rattle.rule_text.specs.Written.{flag_word, written_pair, written_tree};

use crate::forms::{is_reserved, is_word, list, number, number_pair, numbers, word};
use crate::item::{NumberPairs, Numbers, RawTree, RawTrees};
use crate::operators::operator;
use crate::refused::ShapeError;
use sexp_text::{Form, FormKind, Name};
use sqlite_items::Items;
use std::alloc::Global;

/// Where a tree is written: a pattern has no operators and no maps, a ground term no operators.
#[derive(Clone, Copy, Debug, PartialEq, Eq)]
pub enum Place {
    Pattern,
    Expression,
    Ground,
}

// The truth value that a word writes.
fn flag(name: &Name) -> Option<bool>
    ensures some { IfSome result (λ flag. name.now ≡ flag_word flag) }
    ensures none { IsNone result → (flag : Bool) → name.now ≢ flag_word flag }
{
    let name = name.as_slice();
    if name == "true".as_bytes() {
        return Some(true);
    }
    if name == "false".as_bytes() {
        return Some(false);
    }
    None
}

// The two numbers of a map's entry.
fn entry(form: &Form) -> Option<(u64, u64)>
    ensures some { IfSome result (λ pair. without_spans form.now ≡ written_pair pair) }
    ensures none { IsNone result → (pair : ℕ × ℕ) → without_spans form.now ≢ written_pair pair }
{
    number_pair(list(form)?)
}

// The entries of a map.
fn entries(alloc: Global, forms: &[Form]) -> Result<NumberPairs, ShapeError>
    ensures ok { IfOk result (λ pairs. map without_spans forms.now ≡ map written_pair pairs) }
    ensures refused { RefusedOnlyIfNone result (λ pairs. map without_spans forms.now ≡ map written_pair pairs) }
{
    let mut pairs = Items::new(alloc);
    for form in forms {
        let Some(pair) = entry(form) else {
            return Err(ShapeError::NoItem);
        };
        pairs.push(pair)?;
    }
    Ok(pairs)
}

// The map whose widths and entries stand behind `map`.
fn map_tree(alloc: Global, place: Place, parts: &[Form]) -> Result<RawTree, ShapeError>
    ensures ok { IfOk result (WritesTree place (plain_list (plain_word (codes "map") ∷ map without_spans parts.now))) }
    ensures refused { RefusedOnlyIfNone result
        (WritesTree place (plain_list (plain_word (codes "map") ∷ map without_spans parts.now))) }
{
    if place == Place::Pattern {
        return Err(ShapeError::NoItem);
    }
    let [key, word, rest @ ..] = parts else {
        return Err(ShapeError::NoItem);
    };
    let Some(key) = number(key) else {
        return Err(ShapeError::NoItem);
    };
    let Some(word) = number(word) else {
        return Err(ShapeError::NoItem);
    };
    let entries = entries(alloc, rest)?;
    Ok(RawTree::Map { key, word, entries })
}

// How many of so many forms behind a name are its numbers, where all others are its arguments.
fn number_count(place: Place, name: &Name, forms: usize) -> Option<usize>
    ensures some { IfSome result (λ count. (count ≤ forms) × IsHead place name.now count (forms - count)) }
    ensures none { IsNone result → (numbers arguments : ℕ) →
        numbers + arguments ≡ forms → ¬ IsHead place name.now numbers arguments }
{
    if !is_reserved(name) {
        return Some(0);
    }
    if place != Place::Expression {
        return None;
    }
    let (numbers, arguments) = operator(name.as_slice())?;
    if numbers <= forms && forms - numbers == arguments {
        return Some(numbers);
    }
    None
}

// The name that a list begins with and the numbers behind it, where all other forms are arguments.
fn named_numbers(
    alloc: Global,
    place: Place,
    front: &Form,
    rest: &[Form],
) -> Result<(Name, Numbers), ShapeError>
    ensures ok { IfOk result (WritesFront place front.now rest.now) }
    ensures refused { RefusedOnlyIfNone result (WritesFront place front.now rest.now) }
{
    let name = word(alloc, front)?;
    let Some(count) = number_count(place, &name, rest.len()) else {
        drop(name);
        return Err(ShapeError::NoItem);
    };
    match numbers(alloc, &rest[..count]) {
        Ok(numbers) => Ok((name, numbers)),
        Err(error) => {
            drop(name);
            Err(error)
        }
    }
}

// A constructor or an operator with its numbers and arguments.
fn applied(name: Name, numbers: Numbers, args: RawTrees) -> RawTree
    ensures { (place : Place) → IsHead place name (length numbers) (length args) →
        AllPass (is_lawful_tree place) args →
        WritesTree place (plain_list (plain_word name ∷ (map plain_number numbers ++ map written_tree args))) result }
{
    if is_reserved(&name) {
        return RawTree::Op {
            name,
            numbers,
            args,
        };
    }
    RawTree::Con(name, args)
}

// Puts a tree behind others, where there is one.
fn push(trees: &mut RawTrees, tree: Result<RawTree, ShapeError>) -> Result<(), ShapeError>
    ensures ok { IsOk result → IsOkAnd tree (λ tree. trees.new ≡ trees.old ++ tree ∷ []) }
    ensures refused { IsErrOf result ShapeError.NoItem → IsErrOf tree ShapeError.NoItem }
{
    trees.push(tree?)?;
    Ok(())
}

/// The tree that a form writes.
#[cycle(tree)]
pub fn tree(alloc: Global, place: Place, form: &Form) -> Result<RawTree, ShapeError>
    ensures ok { IfOk result (WritesTree place (without_spans form.now)) }
    ensures refused { RefusedOnlyIfNone result (WritesTree place (without_spans form.now)) }
{
    match &form.kind {
        FormKind::Word(name) => {
            if let Some(flag) = flag(name) {
                return Ok(RawTree::Flag(flag));
            }
            if is_reserved(name) {
                return Err(ShapeError::NoItem);
            }
            Ok(RawTree::Word(name.copy(alloc)?))
        }
        FormKind::Number(number) => Ok(RawTree::Number(*number)),
        FormKind::List(forms) => list_tree(alloc, place, forms.as_slice()),
    }
}

// The tree that a list of forms writes.
#[cycle(tree)]
fn list_tree(alloc: Global, place: Place, forms: &[Form]) -> Result<RawTree, ShapeError>
    ensures ok { IfOk result (WritesTree place (plain_list (map without_spans forms.now))) }
    ensures refused { RefusedOnlyIfNone result (WritesTree place (plain_list (map without_spans forms.now))) }
{
    let [front, rest @ ..] = forms else {
        return Err(ShapeError::NoItem);
    };
    if is_word(front, "bits") {
        let Some((width, number)) = number_pair(rest) else {
            return Err(ShapeError::NoItem);
        };
        return Ok(RawTree::Bits(width, number));
    }
    if is_word(front, "map") {
        return map_tree(alloc, place, rest);
    }
    let (name, numbers) = named_numbers(alloc, place, front, rest)?;
    let mut args = Items::new(alloc);
    for form in &rest[numbers.len()..] {
        if let Err(error) = push(&mut args, tree(alloc, place, form)) {
            drop((name, numbers, args));
            return Err(error);
        }
    }
    Ok(applied(name, numbers, args))
}
