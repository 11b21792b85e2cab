// Expressions and conditions where variables are bound to trees.
ghost use Rattle.std.specs.Prelude.{◌≡◌, ◌↔◌, All, IfOk, IsTrue, true};
ghost use Rattle.data_value.specs.declared.Scalar.TheVariants.{Flag};
ghost use Rattle.data_value.specs.declared.Value.TheVariants.{One};
ghost use Rattle.data_value.specs.Ground.{ground_seen};
ghost use Rattle.sort_term.specs.Tree.{IsTrueTree, value};
ghost use Rattle.sort_term.specs.Cuts.{AllTrue};
ghost use Rattle.sort_term.specs.NodeTerms.{seen_term};
ghost use Rattle.unify.specs.Binds.{Gives};
ghost use Rattle.ground_step.specs.GroundBinds.{Restricts, ground_binds};
ghost use Rattle.ground_step.specs.Ready.{IsEvaluable};

use data_value::{Ground, Scalar, Value};
use no_memory::NoMemory;
use sort_term::{RuleExpr, Semantics, Side, Term};
use std::alloc::Global;
use unify::{Binds, evaluate};

/// The value of an expression.
pub fn expression_tree<S: Side>(
    alloc: Global,
    semantics: &Semantics<S>,
    expression: &RuleExpr,
    binds: &Binds<Value>,
) -> Result<Term<Value>, NoMemory>
    requires { IsEvaluable semantics.now.cons binds.now expression.now }
    ensures { IfOk result (λ tree. Gives semantics.now.cons (ground_binds binds.now) expression.now (seen_term ground_seen tree)) }
{
    let mut ground = Ground::new(alloc);
    Ok(evaluate(alloc, &mut ground, semantics, expression, binds)?)
}

/// Whether a value is the truth value true.
pub fn is_true(value: &Value) -> bool
    ensures { IsTrue result ↔ (value.now ≡ One (Flag true)) }
{
    match value {
        Value::One(Scalar::Flag(flag)) => *flag,
        _ => false,
    }
}

/// Whether all of these values are the truth value true.
pub fn all_true(values: &[Value]) -> bool
    ensures { IsTrue result ↔ All (λ x. x ≡ One (Flag true)) values.now }
{
    for value in values {
        if !is_true(value) {
            return false;
        }
    }
    true
}

fn is_true_tree(tree: &Term<Value>) -> bool
    ensures { IsTrue result ↔ IsTrueTree tree.now }
{
    match tree {
        Term::Con(..) => false,
        Term::Plain(value) => is_true(value),
    }
}

// Whether a condition is true.
fn holds<S: Side>(
    alloc: Global,
    semantics: &Semantics<S>,
    condition: &RuleExpr,
    binds: &Binds<Value>,
) -> Result<bool, NoMemory>
    requires { IsEvaluable semantics.now.cons binds.now condition.now }
    ensures { IfOk result (λ ok. Restricts binds.now binds.now ok (λ v. IsTrueTree (value v condition.now))) }
{
    let tree = expression_tree(alloc, semantics, condition, binds)?;
    Ok(is_true_tree(&tree))
}

/// Whether all conditions are true.
pub fn all_hold<S: Side>(
    alloc: Global,
    semantics: &Semantics<S>,
    conditions: &[RuleExpr],
    binds: &Binds<Value>,
) -> Result<bool, NoMemory>
    requires { All (IsEvaluable semantics.now.cons binds.now) conditions.now }
    ensures { IfOk result (λ ok. Restricts binds.now binds.now ok (λ v. AllTrue v conditions.now)) }
{
    for condition in conditions {
        if !holds(alloc, semantics, condition, binds)? {
            return Ok(false);
        }
    }
    Ok(true)
}
