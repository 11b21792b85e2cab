// Whether what an item says is well sorted, binds its variables and determines them.
ghost use Rattle.std.specs.Prelude.{◌↔◌, IsTrue, [], ◌∷◌, All};
ghost use Rattle.data_value.specs.declared.DataSort.TheVariants.{Bool as BoolSort};
ghost use Rattle.sort_term.specs.declared.term.Sort.TheVariants.{Plain};
ghost use Rattle.sort_term.specs.Problems.{IsConfigExpr};
ghost use Rattle.sort_term.specs.Rules.{RepeatsOnlyScalars, AllStandIn};
ghost use Rattle.sort_term.specs.Sorted.{IsExprOf};
ghost use Rattle.sync_points.specs.Sorts.{IsCutSorted, IsPointSorted, IsPieceSorted, IsPieceBound, IsPieceDetermined};

use crate::draft::PointsDraft;
use crate::piece::Piece;
use sort_term::{
    Con, Cut, Demand, Pattern, Point, RuleExpr, Semantics, Side, Sort, Var, all_stand_in,
    are_conditions, are_determined, is_config, is_pattern_of, repeats_only_scalars,
};

/// Whether what an item says is well sorted.
pub fn is_piece_sorted(draft: &PointsDraft<'_>, piece: &Piece) -> bool
    ensures { IsTrue result ↔ IsPieceSorted draft.now.left draft.now.right piece.now }
{
    match piece {
        Piece::LeftCut(cut) => is_cut_sorted(draft.left(), cut),
        Piece::RightCut(cut) => is_cut_sorted(draft.right(), cut),
        Piece::Point(point) => is_point_sorted(draft, point),
    }
}

// Whether an item of a cut is well sorted.
fn is_cut_sorted<S: Side>(semantics: &Semantics<S>, cut: &Cut<S>) -> bool
    ensures { IsTrue result ↔ IsCutSorted semantics.now cut.now }
{
    let cons = semantics.cons().as_slice();
    let vars = cut.vars.as_slice();
    is_pattern_of(cons, vars, Sort::Own(semantics.config()), &cut.pattern)
        && repeats_in(vars, &cut.pattern)
        && are_conditions(cons, vars, cut.whens.as_slice())
}

// Whether a variable that stands more than once in a pattern is scalar.
fn repeats_in(vars: &[Var], pattern: &Pattern) -> bool
    ensures { IsTrue result ↔ RepeatsOnlyScalars vars.now (pattern.now ∷ []) }
{
    let none: [Demand; 0] = [];
    repeats_only_scalars(vars, pattern, &none)
}

// Whether a point is well sorted.
fn is_point_sorted(draft: &PointsDraft<'_>, point: &Point) -> bool
    ensures { IsTrue result ↔ IsPointSorted draft.now.left draft.now.right point.now }
{
    let vars = point.vars.as_slice();
    are_configs(draft, vars, &point.left, &point.right)
        && are_plain_conditions(vars, point.whens.as_slice())
}

// Whether two terms are of the configuration sorts of the left side and of the right one.
fn are_configs(draft: &PointsDraft<'_>, vars: &[Var], left: &RuleExpr, right: &RuleExpr) -> bool
    ensures { IsTrue result ↔ (IsConfigExpr draft.now.left vars.now left.now × IsConfigExpr draft.now.right vars.now right.now) }
{
    is_config(draft.left(), vars, left) && is_config(draft.right(), vars, right)
}

// Whether conditions without constructors are of sort bool.
fn are_plain_conditions(vars: &[Var], whens: &[RuleExpr]) -> bool
    ensures { IsTrue result ↔ All (IsExprOf [] vars.now (Plain BoolSort)) whens.now }
{
    let none: [Con; 0] = [];
    are_conditions(&none, vars, whens)
}

/// Whether each variable of an item of a cut stands in its pattern.
pub fn is_piece_bound(piece: &Piece) -> bool
    ensures { IsTrue result ↔ IsPieceBound piece.now }
{
    match piece {
        Piece::LeftCut(cut) => stand_in(cut.vars.as_slice(), &cut.pattern),
        Piece::RightCut(cut) => stand_in(cut.vars.as_slice(), &cut.pattern),
        Piece::Point(_) => true,
    }
}

// Whether each variable stands in a pattern.
fn stand_in(vars: &[Var], pattern: &Pattern) -> bool
    ensures { IsTrue result ↔ AllStandIn vars.now (pattern.now ∷ []) }
{
    let none: [Demand; 0] = [];
    all_stand_in(vars, pattern, &none)
}

/// Whether a related pair determines each variable of a point.
pub fn is_piece_determined(piece: &Piece) -> bool
    ensures { IsTrue result ↔ IsPieceDetermined piece.now }
{
    match piece {
        Piece::LeftCut(_) | Piece::RightCut(_) => true,
        Piece::Point(point) => are_determined(point.vars.as_slice(), &point.left, &point.right),
    }
}
