// Leaves that are kept, and leaves that are dropped.
ghost use Rattle.std.specs.Prelude.{◌≡◌, true, false, [], ◌∷◌, length, if◌then◌else◌, IfOk, IsTrue};
ghost use Rattle.data_value.specs.Nodes.{Extends};
ghost use Rattle.data_value.specs.Truth.{IsCondition, truth};
ghost use Rattle.sort_term.specs.System.{System};
ghost use Rattle.sort_term.specs.NodeTerms.{seen_term, is_valid_term};
ghost use Rattle.path_condition.specs.Leaves.{seen_leaf, seen_leaves, IsLeaf, Says};
ghost use Rattle.cut_search.specs.Drops.{AreAnswered};
ghost use Rattle.cut_search.specs.Found.{under, IsSifted, judged_by};

use crate::drops::Drops;
use data_value::conditions::{both, is_known_false, known_truth};
use data_value::{Symbolic, is_same};
use no_memory::NoMemory;
use path_condition::{Leaf, Leaves};
use simplify::simplify;
use sort_term::{Config, Side};
use sqlite_items::Items;
use std::alloc::Global;
use unify::copy_term;

/// What became of a leaf, or of leaves.
#[derive(Drop)]
pub(crate) struct Sifted<S: Side, N> {
    /// Those that are kept.
    pub kept: Leaves<S, N>,
    /// Those that were dropped.
    pub dropped: Leaves<S, N>,
}

/// The leaf where one condition more is true. `before` is the condition of the leaf from which it was a step.
pub(crate) fn part<S: Side, D: Symbolic, J: Drops<D>>(
    alloc: Global,
    d: &mut D,
    judge: &mut J,
    answers: &mut Vec<bool>,
    before: &D::Node,
    leaf: &Leaf<S, D::Node>,
    condition: &D::Node,
) -> Result<Sifted<S, D::Node>, NoMemory>
    requires before { IsCondition (D.look d.old before.now) }
    requires leaf { IsCondition (D.look d.old leaf.now.condition) }
    requires state { IsTrue (is_valid_term (seen_term (D.look d.old) leaf.now.config.term)) }
    requires condition { IsCondition (D.look d.old condition.now) }
    ensures extends { Extends (D.look d.old) (D.look d.new) }
    ensures same_variables { D.variables d.new ≡ D.variables d.old }
    ensures sifted { IfOk result
        (λ s. (sys : System) → IsLeaf sys (seen_leaf (D.look d.old) leaf.now) →
        IsSifted (D.variables d.old) sys (judged_by J.Allows J.Keeps (D.variables d.old) (D.look d.old before.now ∷ []))
        (λ v rules t. Says v rules t (seen_leaf (D.look d.old) leaf.now) × (truth (D.look d.old condition.now) v ≡ true))
        (seen_leaves (D.look d.new) s.kept) (seen_leaves (D.look d.new) s.dropped)) }
    ensures answered { IfOk result (λ s. AreAnswered answers.old.items answers.new.items (length s.dropped)) }
{
    let condition = both(alloc, d, &leaf.condition, condition)?;
    Ok(sift(alloc, d, judge, answers, before, leaf, condition)?)
}

/// The leaf under another condition, in a simpler form: left out if that is known to be false, else kept or dropped.
pub(crate) fn sift<S: Side, D: Symbolic, J: Drops<D>>(
    alloc: Global,
    d: &mut D,
    judge: &mut J,
    answers: &mut Vec<bool>,
    before: &D::Node,
    leaf: &Leaf<S, D::Node>,
    condition: D::Node,
) -> Result<Sifted<S, D::Node>, NoMemory>
    requires before { IsCondition (D.look d.old before.now) }
    requires state { IsTrue (is_valid_term (seen_term (D.look d.old) leaf.now.config.term)) }
    requires condition { IsCondition (D.look d.old condition) }
    ensures extends { Extends (D.look d.old) (D.look d.new) }
    ensures same_variables { D.variables d.new ≡ D.variables d.old }
    ensures sifted { IfOk result
        (λ s. (sys : System) → IsLeaf sys (under (D.look d.old condition) (seen_leaf (D.look d.old) leaf.now)) →
        IsSifted (D.variables d.old) sys (judged_by J.Allows J.Keeps (D.variables d.old) (D.look d.old before.now ∷ []))
        (λ v rules t. Says v rules t (under (D.look d.old condition) (seen_leaf (D.look d.old) leaf.now)))
        (seen_leaves (D.look d.new) s.kept) (seen_leaves (D.look d.new) s.dropped)) }
    ensures answered { IfOk result (λ s. AreAnswered answers.old.items answers.new.items (length s.dropped)) }
{
    let simpler = simplify(alloc, d, &condition)?;
    Ok(sift_as_it_is(alloc, d, judge, answers, before, leaf, simpler)?)
}

// The leaf under another condition, as that is.
fn sift_as_it_is<S: Side, D: Symbolic, J: Drops<D>>(
    alloc: Global,
    d: &mut D,
    judge: &mut J,
    answers: &mut Vec<bool>,
    before: &D::Node,
    leaf: &Leaf<S, D::Node>,
    condition: D::Node,
) -> Result<Sifted<S, D::Node>, NoMemory>
    requires before { IsCondition (D.look d.old before.now) }
    requires state { IsTrue (is_valid_term (seen_term (D.look d.old) leaf.now.config.term)) }
    requires condition { IsCondition (D.look d.old condition) }
    ensures extends { Extends (D.look d.old) (D.look d.new) }
    ensures same_variables { D.variables d.new ≡ D.variables d.old }
    ensures sifted { IfOk result
        (λ s. (sys : System) → IsLeaf sys (under (D.look d.old condition) (seen_leaf (D.look d.old) leaf.now)) →
        IsSifted (D.variables d.old) sys (judged_by J.Allows J.Keeps (D.variables d.old) (D.look d.old before.now ∷ []))
        (λ v rules t. Says v rules t (under (D.look d.old condition) (seen_leaf (D.look d.old) leaf.now)))
        (seen_leaves (D.look d.new) s.kept) (seen_leaves (D.look d.new) s.dropped)) }
    ensures answered { IfOk result (λ s. AreAnswered answers.old.items answers.new.items (length s.dropped)) }
{
    if is_known_false(d, &condition) {
        return Ok(Sifted {
            kept: Items::new(alloc),
            dropped: Items::new(alloc),
        });
    }
    let is_out = is_dropped(alloc, d, judge, answers, before, &condition)?;
    let leaf = under_condition(alloc, d, leaf, condition)?;
    Ok(sorted(alloc, leaf, is_out)?)
}

// A leaf alone, as one that is dropped or as one that is kept.
fn sorted<S: Side, N: Drop>(
    alloc: Global,
    leaf: Leaf<S, N>,
    is_out: bool,
) -> Result<Sifted<S, N>, NoMemory>
    ensures kept { IfOk result (λ s. s.kept ≡ (if is_out then [] else leaf ∷ [])) }
    ensures dropped { IfOk result (λ s. s.dropped ≡ (if is_out then leaf ∷ [] else [])) }
{
    let mut leaves = Items::new(alloc);
    leaves.push(leaf)?;
    let none = Items::new(alloc);
    if is_out {
        Ok(Sifted {
            kept: none,
            dropped: leaves,
        })
    } else {
        Ok(Sifted {
            kept: leaves,
            dropped: none,
        })
    }
}

// Whether paths under a condition are dropped. It is asked only where that is new: where the condition isn't known, and isn't
// that of the path before.
fn is_dropped<D: Symbolic, J: Drops<D>>(
    alloc: Global,
    d: &mut D,
    judge: &mut J,
    answers: &mut Vec<bool>,
    before: &D::Node,
    condition: &D::Node,
) -> Result<bool, NoMemory>
    requires before { IsCondition (D.look d.old before.now) }
    requires condition { IsCondition (D.look d.old condition.now) }
    ensures extends { Extends (D.look d.old) (D.look d.new) }
    ensures same_variables { D.variables d.new ≡ D.variables d.old }
    ensures judged { IfOk result
        (λ dropped. judged_by J.Allows J.Keeps (D.variables d.old) (D.look d.old before.now ∷ []) dropped (D.look d.old condition.now)) }
    ensures answered { IfOk result (λ dropped. AreAnswered answers.old.items answers.new.items (if dropped then 1 else 0)) }
{
    if known_truth(d, condition).is_some() || is_same(d, before, condition) {
        return Ok(false);
    }
    let dropped = judge.drops(alloc, d, answers.as_slice(), before, condition)?;
    answers.push(dropped)?;
    Ok(dropped)
}

// A leaf with the state and the rules of another, under another condition. Each leaf that a search makes of a step is made here.
fn under_condition<S: Side, D: Symbolic>(
    alloc: Global,
    d: &D,
    leaf: &Leaf<S, D::Node>,
    condition: D::Node,
) -> Result<Leaf<S, D::Node>, NoMemory>
    requires state { IsTrue (is_valid_term (seen_term (D.look d.now) leaf.now.config.term)) }
    ensures { IfOk result (λ l. seen_leaf (D.look d.now) l ≡ under (D.look d.now condition) (seen_leaf (D.look d.now) leaf.now)) }
{
    let config = copy_term(alloc, d, leaf.config.term())?;
    let rules = Items::from_slice(alloc, leaf.rules.as_slice())?;
    Ok(Leaf {
        config: Config::new(config),
        condition,
        rules,
    })
}
