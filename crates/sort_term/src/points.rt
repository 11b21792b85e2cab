use crate::rule::{Pattern, RuleExpr, RuleExprs, Vars};
use crate::term::{Left, Right, Side};
use data_value::Places;
use sexp_text::Name;
use sqlite_items::Items;
use std::marker::PhantomData;

/// An item of the cut of side `S`: the states that its pattern fits and whose conditions are true.
#[derive(Drop)]
pub struct Cut<S: Side> {
    /// The item's name.
    pub name: Name,
    /// Its variables.
    pub vars: Vars,
    /// What the states look like.
    pub pattern: Pattern,
    /// Its conditions.
    pub whens: RuleExprs,
    /// The side, which takes no room.
    pub side: PhantomData<S>,
}

/// The cut of side `S`: its items, in the order of the text.
pub type Cuts<S> = Items<Cut<S>>;

/// A synchronisation point: the pairs of states that its two terms give where its conditions are true.
#[derive(Drop)]
pub struct Point {
    /// The point's name.
    pub name: Name,
    /// Its variables, of data sorts.
    pub vars: Vars,
    /// The state of the left side.
    pub left: RuleExpr,
    /// The state of the right side.
    pub right: RuleExpr,
    /// Its conditions.
    pub whens: RuleExprs,
}

/// The points, in the order of the text.
pub type PointList = Items<Point>;

/// The cuts of both sides, and the points.
#[derive(Drop)]
pub struct Points {
    /// The cut of the left side.
    pub left_cuts: Cuts<Left>,
    /// The cut of the right side.
    pub right_cuts: Cuts<Right>,
    /// Which items of the left cut stand for undefined states: their places in it, counted from 0 and rising.
    pub undefs: Places,
    /// The points.
    pub points: PointList,
}
