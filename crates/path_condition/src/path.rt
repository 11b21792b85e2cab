//! Paths.
ghost use Rattle.std.specs.Prelude.{◌≡◌, ◌&&◌, [], ◌∷◌, ◌++◌, IfOk, false};
ghost use Rattle.data_value.specs.Nodes.{Extends};
ghost use Rattle.data_value.specs.Truth.{IsCondition, IsFoldedFrom, IsTruth, truth};

use data_value::Domain;
use data_value::conditions::both;
use no_memory::NoMemory;
use sort_term::{RuleId, RuleIds};
use sqlite_items::Items;
use std::alloc::Global;

/// A run over the nodes of a domain: what is supposed of the domain's variables for it to be made, and its rules.
#[derive(Drop)]
pub struct Path<N> {
    /// The condition, a node of sort bool.
    pub condition: N,
    /// The rules of the steps, in their order.
    pub rules: RuleIds,
}

/// The path with no step under a condition. It takes no memory.
pub fn begin<N>(alloc: Global, condition: N) -> Path<N>
    ensures condition { result.condition ≡ condition }
    ensures rules { result.rules ≡ [] }
{
    Path {
        condition,
        rules: Items::new(alloc),
    }
}

/// The path with one step more, by a rule where a condition is true. The new condition is true exactly where both are, and
/// known where what is known of them settles it. The only error is want of memory.
pub fn extend<D: Domain>(
    alloc: Global,
    d: &mut D,
    path: &Path<D::Node>,
    condition: &D::Node,
    rule: RuleId,
) -> Result<Path<D::Node>, NoMemory>
    requires path { IsCondition (D.look d.old path.now.condition) }
    requires condition { IsCondition (D.look d.old condition.now) }
    ensures extends { Extends (D.look d.old) (D.look d.new) }
    ensures same_variables { D.variables d.new ≡ D.variables d.old }
    ensures means { IfOk result
        (λ p. IsTruth (D.look d.new p.condition)
        (λ v. truth (D.look d.old path.now.condition) v && truth (D.look d.old condition.now) v)) }
    ensures knows { IfOk result
        (λ p. IsFoldedFrom false (D.look d.old path.now.condition) (D.look d.old condition.now) (D.look d.new p.condition)) }
    ensures rules { IfOk result (λ p. p.rules ≡ path.now.rules ++ rule ∷ []) }
{
    let mut rules = Items::from_slice(alloc, path.rules.as_slice())?;
    rules.push(rule)?;
    let condition = both(alloc, d, &path.condition, condition)?;
    Ok(Path { condition, rules })
}
