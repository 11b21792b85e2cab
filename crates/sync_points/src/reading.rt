// What an item says, with numbers in the place of names.
ghost use Rattle.std.specs.Prelude.{◌≡◌, ◌↔◌, true, false, IsTrue, IfOk, MatchOption, None, Some};
ghost use Rattle.rule_text.specs.declared.item.Item.TheVariants as item;
ghost use Rattle.name_resolution.specs.Known.{vocabulary_of, vocabulary_in};
ghost use Rattle.name_resolution.specs.Reads.{expressions_of, tree_of};
ghost use Rattle.name_resolution.specs.Variables.{names_of};
ghost use Rattle.sync_points.specs.Loads.{IsPointsItem};
ghost use Rattle.sync_points.specs.Names.{vars_in};
ghost use Rattle.sync_points.specs.Pieces.{cut_of, point_of, piece_of};

use crate::draft::PointsDraft;
use crate::piece::Piece;
use name_resolution::{Known, NameTable, Readable, read_expressions, read_tree, variables};
use no_memory::NoMemory;
use rule_text::{Item, RawTree, RawVar};
use sexp_text::Name;
use sort_term::{Cut, Pattern, Point, RuleExpr, RuleExprs, Side, Vars};
use std::alloc::Global;
use std::marker::PhantomData;

/// Whether it is an item of a points text.
pub fn is_points_item(item: &Item) -> bool
    ensures { IsTrue result ↔ IsPointsItem item.now }
{
    match item {
        Item::Cut { .. } | Item::Point { .. } => true,
        _ => false,
    }
}

/// What an item says, whose variables have these names; None where it says nothing.
pub fn piece_of(
    alloc: Global,
    draft: &PointsDraft<'_>,
    names: &NameTable,
    item: &Item,
) -> Result<Option<Piece>, NoMemory>
    requires names { names.now ≡ names_of (vars_in item.now) }
    ensures { IfOk result (λ piece. piece ≡ piece_of draft.now.left draft.now.right item.now) }
{
    match item {
        Item::Cut {
            left,
            name,
            vars,
            pattern,
            whens,
        } => {
            let (vars, whens) = (vars.as_slice(), whens.as_slice());
            if *left {
                left_piece(alloc, draft, names, name, vars, pattern, whens)
            } else {
                right_piece(alloc, draft, names, name, vars, pattern, whens)
            }
        }
        Item::Point {
            name,
            vars,
            left,
            right,
            whens,
        } => {
            let (vars, whens) = (vars.as_slice(), whens.as_slice());
            point_piece(alloc, draft, names, name, vars, left, right, whens)
        }
        _ => Ok(None),
    }
}

// What an item of the left cut says.
fn left_piece(
    alloc: Global,
    draft: &PointsDraft<'_>,
    names: &NameTable,
    name: &Name,
    vars: &[RawVar],
    pattern: &RawTree,
    whens: &[RawTree],
) -> Result<Option<Piece>, NoMemory>
    requires names { names.now ≡ names_of vars.now }
    ensures { IfOk result (λ piece. piece ≡ piece_of draft.now.left draft.now.right (item.Cut true name.now vars.now pattern.now whens.now)) }
{
    let known = draft.left_known();
    match cut_of(alloc, &known, names, name, vars, pattern, whens)? {
        Some(cut) => Ok(Some(Piece::LeftCut(cut))),
        None => Ok(None),
    }
}

// What an item of the right cut says.
fn right_piece(
    alloc: Global,
    draft: &PointsDraft<'_>,
    names: &NameTable,
    name: &Name,
    vars: &[RawVar],
    pattern: &RawTree,
    whens: &[RawTree],
) -> Result<Option<Piece>, NoMemory>
    requires names { names.now ≡ names_of vars.now }
    ensures { IfOk result (λ piece. piece ≡ piece_of draft.now.left draft.now.right (item.Cut false name.now vars.now pattern.now whens.now)) }
{
    let known = draft.right_known();
    match cut_of(alloc, &known, names, name, vars, pattern, whens)? {
        Some(cut) => Ok(Some(Piece::RightCut(cut))),
        None => Ok(None),
    }
}

// What a point says.
fn point_piece(
    alloc: Global,
    draft: &PointsDraft<'_>,
    names: &NameTable,
    name: &Name,
    vars: &[RawVar],
    left: &RawTree,
    right: &RawTree,
    whens: &[RawTree],
) -> Result<Option<Piece>, NoMemory>
    requires names { names.now ≡ names_of vars.now }
    ensures { IfOk result (λ piece. piece ≡ piece_of draft.now.left draft.now.right (item.Point name.now vars.now left.now right.now whens.now)) }
{
    match point_of(alloc, draft, names, name, vars, left, right, whens)? {
        Some(point) => Ok(Some(Piece::Point(point))),
        None => Ok(None),
    }
}

// The item of a cut that is written, whose variables have these names.
fn cut_of<S: Side>(
    alloc: Global,
    known: &Known<'_>,
    names: &NameTable,
    name: &Name,
    vars: &[RawVar],
    pattern: &RawTree,
    whens: &[RawTree],
) -> Result<Option<Cut<S>>, NoMemory>
    requires names { names.now ≡ names_of vars.now }
    ensures { IfOk result (λ cut. cut ≡ cut_of (vocabulary_of known.now) name.now vars.now pattern.now whens.now) }
{
    let Some(vars) = variables(alloc, known, vars)? else {
        return Ok(None);
    };
    let Some(parts) = with_tree::<Vars, Pattern>(alloc, known, names, vars, pattern)? else {
        return Ok(None);
    };
    let Some((parts, whens)) = with_expressions(alloc, known, names, parts, whens)? else {
        return Ok(None);
    };
    let (vars, pattern) = parts;
    match name.copy(alloc) {
        Ok(name) => Ok(Some(Cut {
            name,
            vars,
            pattern,
            whens,
            side: PhantomData,
        })),
        Err(error) => {
            drop((vars, pattern, whens));
            Err(error)
        }
    }
}

// The point that is written, whose variables have these names.
fn point_of(
    alloc: Global,
    draft: &PointsDraft<'_>,
    names: &NameTable,
    name: &Name,
    vars: &[RawVar],
    left: &RawTree,
    right: &RawTree,
    whens: &[RawTree],
) -> Result<Option<Point>, NoMemory>
    requires names { names.now ≡ names_of vars.now }
    ensures { IfOk result (λ point. point ≡ point_of (vocabulary_in draft.now.left) (vocabulary_in draft.now.right) name.now vars.now left.now right.now whens.now) }
{
    let none = draft.none_known();
    let Some(vars) = variables(alloc, &none, vars)? else {
        return Ok(None);
    };
    let known = draft.left_known();
    let Some(parts) = with_tree::<Vars, RuleExpr>(alloc, &known, names, vars, left)? else {
        return Ok(None);
    };
    let known = draft.right_known();
    let Some(parts) = with_tree::<(Vars, RuleExpr), RuleExpr>(alloc, &known, names, parts, right)?
    else {
        return Ok(None);
    };
    let Some((parts, whens)) = with_expressions(alloc, &none, names, parts, whens)? else {
        return Ok(None);
    };
    let ((vars, left), right) = parts;
    match name.copy(alloc) {
        Ok(name) => Ok(Some(Point {
            name,
            vars,
            left,
            right,
            whens,
        })),
        Err(error) => {
            drop((vars, left, right, whens));
            Err(error)
        }
    }
}

// What was read before, with what a tree is read as; None where it is nothing.
fn with_tree<A: Drop, X: Readable>(
    alloc: Global,
    known: &Known<'_>,
    names: &NameTable,
    before: A,
    raw: &RawTree,
) -> Result<Option<(A, X)>, NoMemory>
    ensures { IfOk result (λ both. MatchOption both (tree_of X.reading (vocabulary_of known.now) names.now raw.now ≡ None) (λ p. (p.0 ≡ before) × (tree_of X.reading (vocabulary_of known.now) names.now raw.now ≡ Some p.1))) }
{
    match read_tree::<X>(alloc, known, names, raw) {
        Ok(Some(read)) => Ok(Some((before, read))),
        Ok(None) => {
            drop(before);
            Ok(None)
        }
        Err(error) => {
            drop(before);
            Err(error)
        }
    }
}

// What was read before, with the expressions that trees are; None where one is none.
fn with_expressions<A: Drop>(
    alloc: Global,
    known: &Known<'_>,
    names: &NameTable,
    before: A,
    raws: &[RawTree],
) -> Result<Option<(A, RuleExprs)>, NoMemory>
    ensures { IfOk result (λ both. MatchOption both (expressions_of (vocabulary_of known.now) names.now raws.now ≡ None) (λ p. (p.0 ≡ before) × (expressions_of (vocabulary_of known.now) names.now raws.now ≡ Some p.1))) }
{
    match read_expressions(alloc, known, names, raws) {
        Ok(Some(read)) => Ok(Some((before, read))),
        Ok(None) => {
            drop(before);
            Ok(None)
        }
        Err(error) => {
            drop(before);
            Err(error)
        }
    }
}
