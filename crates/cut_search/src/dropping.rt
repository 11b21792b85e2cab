//! The search, level by level.
ghost use Rattle.std.specs.Prelude.{◌≡◌, [], ◌∷◌, length, IfOk, All, IsTrue};
ghost use Rattle.data_value.specs.Nodes.{Extends};
ghost use Rattle.data_value.specs.Truth.{IsCondition};
ghost use Rattle.sort_term.specs.Problems.{AreCuts, IsProgram};
ghost use Rattle.sort_term.specs.Step.{StepsBy};
ghost use Rattle.sort_term.specs.Cuts.{InCut};
ghost use Rattle.sort_term.specs.Runs.{MetTo, LongTo, HaltedTo};
ghost use Rattle.sort_term.specs.NodeTerms.{seen_term, is_valid_term};
ghost use Rattle.unify.specs.Branches.{IsConfiguration};
ghost use Rattle.path_condition.specs.Leaves.{seen_leaves};
ghost use Rattle.cut_search.specs.Drops.{EndsFrom, OpenTo, AreAmong, AreLeavesBut, AreAnswered, AreSettled};
ghost use Rattle.cut_search.specs.Found.{seen_reach, IsReach, SearchOf, judged_by};

use crate::drops::Drops;
use crate::halting::halt_all;
use crate::levels::level;
use crate::reach::{Reach, followed, joined, nothing};
use data_value::Symbolic;
use no_memory::NoMemory;
use path_condition::Leaf;
use sort_term::{Config, Cuts, Program, Semantics, Side};
use sqlite_items::Items;
use std::alloc::Global;
use unify::copy_term;

/// All runs of at most `steps` steps from a configuration up to the cut, but those that `judge` drops. The program and the cut
/// fit the semantics, the configuration is a term of valid nodes which by their sorts is of the configuration sort, and the
/// condition is a node of sort bool.
///
/// Under every valuation of the domain's variables under which no dropped leaf's condition is true, the leaves give exactly the
/// met, the long and the halted runs from the configuration's value, by their rules and their last states, where `condition` is
/// true; under any other they give nothing else. A halted run of exactly `steps` steps is in both lists, `long` and `halted`.
///
/// `judge` is asked about the condition of a path exactly where it isn't known and isn't kept under the number of that of the path one
/// step before: so of each leaf that is kept the judge kept its condition, or it is known, or it is `condition`. The number of a question
/// is the count of `answers` before it, and its answer is appended to them. What is dropped stands whole in `dropped`: where it holds, its
/// rules are those of a run of which no state strictly between the first and the last is in the cut. Where a path's condition is known to
/// be false, it is left out without a question. States and conditions are simplified as they are made. The domain's variables stay as
/// they are. The only error is want of memory.
pub fn search_dropping<S: Side, D: Symbolic, J: Drops<D>>(
    alloc: Global,
    d: &mut D,
    judge: &mut J,
    answers: &mut Vec<bool>,
    semantics: &Semantics<S>,
    program: &Program<S>,
    cuts: &Cuts<S>,
    start: &Config<S, D::Node>,
    condition: &D::Node,
    steps: u32,
) -> Result<Reach<S, D::Node>, NoMemory>
    requires program { IsProgram semantics.now program.now }
    requires cuts { AreCuts semantics.now cuts.now }
    requires start { IsConfiguration semantics.now (seen_term (D.look d.old) start.now.term) }
    requires condition { IsCondition (D.look d.old condition.now) }
    ensures extends { Extends (D.look d.old) (D.look d.new) }
    ensures same_variables { D.variables d.new ≡ D.variables d.old }
    ensures met { IfOk result
        (λ r. AreLeavesBut (D.variables d.old) semantics.now (seen_leaves (D.look d.new) r.dropped)
        (EndsFrom (D.look d.old condition.now) (seen_term (D.look d.old) start.now.term)
        (MetTo (StepsBy semantics.now program.now) (InCut semantics.now.cons cuts.now) steps))
        (seen_leaves (D.look d.new) r.met)) }
    ensures long { IfOk result
        (λ r. AreLeavesBut (D.variables d.old) semantics.now (seen_leaves (D.look d.new) r.dropped)
        (EndsFrom (D.look d.old condition.now) (seen_term (D.look d.old) start.now.term)
        (LongTo (StepsBy semantics.now program.now) (InCut semantics.now.cons cuts.now) steps))
        (seen_leaves (D.look d.new) r.long)) }
    ensures halted { IfOk result
        (λ r. AreLeavesBut (D.variables d.old) semantics.now (seen_leaves (D.look d.new) r.dropped)
        (EndsFrom (D.look d.old condition.now) (seen_term (D.look d.old) start.now.term)
        (HaltedTo (StepsBy semantics.now program.now) (InCut semantics.now.cons cuts.now) steps))
        (seen_leaves (D.look d.new) r.halted)) }
    ensures dropped { IfOk result
        (λ r. AreAmong (D.variables d.old) semantics.now
        (EndsFrom (D.look d.old condition.now) (seen_term (D.look d.old) start.now.term)
        (OpenTo (StepsBy semantics.now program.now) (InCut semantics.now.cons cuts.now) steps))
        (seen_leaves (D.look d.new) r.dropped)) }
    ensures allowed { IfOk result
        (λ r. All (λ l. J.Allows (D.variables d.old) l.condition) (seen_leaves (D.look d.new) r.dropped)) }
    ensures met_settled { IfOk result
        (λ r. AreSettled (J.Keeps (D.variables d.old)) (D.look d.old condition.now) (seen_leaves (D.look d.new) r.met)) }
    ensures long_settled { IfOk result
        (λ r. AreSettled (J.Keeps (D.variables d.old)) (D.look d.old condition.now) (seen_leaves (D.look d.new) r.long)) }
    ensures halted_settled { IfOk result
        (λ r. AreSettled (J.Keeps (D.variables d.old)) (D.look d.old condition.now) (seen_leaves (D.look d.new) r.halted)) }
    ensures answered { IfOk result (λ r. AreAnswered answers.old.items answers.new.items (length r.dropped)) }
{
    Ok(all_found(
        alloc, d, judge, answers, semantics, program, cuts, start, condition, steps,
    )?)
}

// The search, with all that it finds in one clause.
fn all_found<S: Side, D: Symbolic, J: Drops<D>>(
    alloc: Global,
    d: &mut D,
    judge: &mut J,
    answers: &mut Vec<bool>,
    semantics: &Semantics<S>,
    program: &Program<S>,
    cuts: &Cuts<S>,
    start: &Config<S, D::Node>,
    condition: &D::Node,
    steps: u32,
) -> Result<Reach<S, D::Node>, NoMemory>
    requires program { IsProgram semantics.now program.now }
    requires cuts { AreCuts semantics.now cuts.now }
    requires start { IsConfiguration semantics.now (seen_term (D.look d.old) start.now.term) }
    requires condition { IsCondition (D.look d.old condition.now) }
    ensures extends { Extends (D.look d.old) (D.look d.new) }
    ensures same_variables { D.variables d.new ≡ D.variables d.old }
    ensures reach { IfOk result
        (λ r. IsReach (D.variables d.old) semantics.now (judged_by J.Allows J.Keeps (D.variables d.old) (D.look d.old condition.now ∷ []))
        (SearchOf (D.look d.old condition.now) (seen_term (D.look d.old) start.now.term)
        (StepsBy semantics.now program.now) (InCut semantics.now.cons cuts.now) steps)
        (seen_reach (D.look d.new) r)) }
    ensures answered { IfOk result (λ r. AreAnswered answers.old.items answers.new.items (length r.dropped)) }
{
    let mut reach = begun(alloc, d, start, condition)?;
    for _level in 0..steps {
        let more = level(
            alloc,
            d,
            judge,
            answers,
            semantics,
            program,
            cuts,
            reach.long.as_slice(),
        )?;
        reach = followed(reach, more)?;
    }
    let halted = halt_all(
        alloc,
        d,
        judge,
        answers,
        semantics,
        program,
        reach.long.as_slice(),
    )?;
    Ok(joined(reach, halted)?)
}

// What is found before the first step.
fn begun<S: Side, D: Symbolic>(
    alloc: Global,
    d: &D,
    start: &Config<S, D::Node>,
    condition: &D::Node,
) -> Result<Reach<S, D::Node>, NoMemory>
    requires start { IsTrue (is_valid_term (seen_term (D.look d.now) start.now.term)) }
    requires condition { IsCondition (D.look d.now condition.now) }
    ensures met { IfOk result (λ r. r.met ≡ []) }
    ensures long { IfOk result
        (λ r. seen_leaves (D.look d.now) r.long ≡
        record { condition = D.look d.now condition.now; state = seen_term (D.look d.now) start.now.term; rules = [] } ∷ []) }
    ensures halted { IfOk result (λ r. r.halted ≡ []) }
    ensures dropped { IfOk result (λ r. r.dropped ≡ []) }
{
    let mut reach = nothing(alloc);
    let config = copy_term(alloc, d, start.term())?;
    let condition = d.copy(condition)?;
    reach.long.push(Leaf {
        config: Config::new(config),
        condition,
        rules: Items::new(alloc),
    })?;
    Ok(reach)
}
