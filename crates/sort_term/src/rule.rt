use crate::ids::{ConId, TableId};
use crate::term::Sort;
use data_value::{Op, Scalar, Value};
use sexp_text::Name;
use sqlite_items::Items;

/// What a tree is compared with. A variable is named by its place in the list of variables of the rule or cut.
#[derive(Drop)]
pub enum Pattern {
    /// Any tree of the variable's sort. Where the variable stands twice, the same tree.
    Bind(usize),
    /// This truth value or bit vector.
    Exact(Scalar),
    /// This constructor, with arguments that the patterns fit.
    Con(ConId, Patterns),
}

/// Patterns, as those of a constructor's arguments.
pub type Patterns = Items<Pattern>;

/// What a tree is computed by. A variable is named by its place in the list of variables of the rule, cut or point.
#[derive(Drop)]
pub enum RuleExpr {
    /// The variable's tree.
    Var(usize),
    /// This value.
    Lit(Value),
    /// The operator's value of the arguments' values.
    Op(Op, RuleExprs),
    /// The constructor with the arguments' values.
    Con(ConId, RuleExprs),
}

/// Expressions, as the conditions of a cut or a point.
pub type RuleExprs = Items<RuleExpr>;

/// The right side of a `let`.
#[derive(Drop)]
pub enum Source {
    /// The expression's value.
    Expr(RuleExpr),
    /// The term of the table's row whose key is the expression's value. Where there is no such row, the `let` fails.
    Row(TableId, RuleExpr),
}

/// What a rule asks for beside its head.
#[derive(Drop)]
pub enum Demand {
    /// The pattern's value equals that of the right side.
    Let(Pattern, Source),
    /// The expression is true.
    When(RuleExpr),
}

/// The demands of a rule, in the order of the text.
pub type Demands = Items<Demand>;

/// A variable of a rule, cut or point.
#[derive(Drop)]
pub struct Var {
    /// The variable's name.
    pub name: Name,
    /// The sort of its trees.
    pub sort: Sort,
}

/// The variables of a rule, cut or point, in the order of the text.
pub type Vars = Items<Var>;

/// A rule. It takes a state that its head fits and whose demands are met to its result.
#[derive(Drop)]
pub struct Rule {
    /// The rule's name.
    pub name: Name,
    /// Its variables.
    pub vars: Vars,
    /// What the state before the step looks like.
    pub head: Pattern,
    /// What else is asked for.
    pub demands: Demands,
    /// The state after the step.
    pub result: RuleExpr,
}

/// The rules of a semantics, in the order of the text.
pub type Rules = Items<Rule>;
