//! The search that drops only what is never true.
ghost use Rattle.std.specs.Prelude.{◌≡◌, IfOk, All};
ghost use Rattle.data_value.specs.Nodes.{Extends};
ghost use Rattle.data_value.specs.Truth.{IsCondition};
ghost use Rattle.sort_term.specs.Problems.{AreCuts, IsProgram};
ghost use Rattle.sort_term.specs.Step.{StepsBy};
ghost use Rattle.sort_term.specs.Cuts.{InCut};
ghost use Rattle.sort_term.specs.Runs.{MetTo, LongTo, HaltedTo};
ghost use Rattle.sort_term.specs.NodeTerms.{seen_term};
ghost use Rattle.unify.specs.Branches.{IsConfiguration};
ghost use Rattle.path_condition.specs.Leaves.{seen_leaves, AreLeaves};
ghost use Rattle.prover.specs.Answers.{IsNeverTrue, IsSometimesTrue};
ghost use Rattle.cut_search.specs.Drops.{EndsFrom, AreSettled};

use crate::dropping::search_dropping;
use crate::drops::Drops;
use crate::reach::Reach;
use data_value::Symbolic;
use no_memory::NoMemory;
use prover::{Answer, decide};
use sort_term::{Config, Cuts, Program, Semantics, Side};
use std::alloc::Global;

/// Drops the paths whose conditions are true under no valuation, and no others.
#[derive(Drop)]
pub struct Decider {}

impl<D: Symbolic> Drops<D> for Decider {
    ghost use Rattle.prover.specs.Answers.{IsNeverTrue, IsSometimesTrue};

    ghost Allows = { λ variables s. IsNeverTrue variables s };

    ghost Keeps = { λ variables s. IsSometimesTrue variables s };

    fn drops(
        &mut self,
        alloc: Global,
        d: &mut D,
        _answers: &[bool],
        _before: &D::Node,
        condition: &D::Node,
    ) -> Result<bool, NoMemory> {
        match decide(alloc, d, condition)? {
            Answer::Never => Ok(true),
            Answer::Holds(_) => Ok(false),
        }
    }
}

/// All runs of at most `steps` steps from a configuration up to the cut. The program and the cut fit the semantics, the
/// configuration is a term of valid nodes which by their sorts is of the configuration sort, and the condition is a node of sort
/// bool.
///
/// Under every valuation of the domain's variables, the leaves give exactly the met, the long and the halted runs from the
/// configuration's value, by their rules and their last states, where `condition` is true. A halted run of exactly `steps` steps
/// is in both lists, `long` and `halted`. What stands in `dropped` is true under no valuation, and the condition of each other leaf is
/// true under some, or is known, or is `condition`. The domain's variables stay as they are. The only error is want of memory.
pub fn search<S: Side, D: Symbolic>(
    alloc: Global,
    d: &mut D,
    semantics: &Semantics<S>,
    program: &Program<S>,
    cuts: &Cuts<S>,
    start: &Config<S, D::Node>,
    condition: &D::Node,
    steps: u32,
) -> Result<Reach<S, D::Node>, NoMemory>
    requires program { IsProgram semantics.now program.now }
    requires cuts { AreCuts semantics.now cuts.now }
    requires start { IsConfiguration semantics.now (seen_term (D.look d.old) start.now.term) }
    requires condition { IsCondition (D.look d.old condition.now) }
    ensures extends { Extends (D.look d.old) (D.look d.new) }
    ensures same_variables { D.variables d.new ≡ D.variables d.old }
    ensures met { IfOk result
        (λ r. AreLeaves (D.variables d.old) semantics.now
        (EndsFrom (D.look d.old condition.now) (seen_term (D.look d.old) start.now.term)
        (MetTo (StepsBy semantics.now program.now) (InCut semantics.now.cons cuts.now) steps))
        (seen_leaves (D.look d.new) r.met)) }
    ensures long { IfOk result
        (λ r. AreLeaves (D.variables d.old) semantics.now
        (EndsFrom (D.look d.old condition.now) (seen_term (D.look d.old) start.now.term)
        (LongTo (StepsBy semantics.now program.now) (InCut semantics.now.cons cuts.now) steps))
        (seen_leaves (D.look d.new) r.long)) }
    ensures halted { IfOk result
        (λ r. AreLeaves (D.variables d.old) semantics.now
        (EndsFrom (D.look d.old condition.now) (seen_term (D.look d.old) start.now.term)
        (HaltedTo (StepsBy semantics.now program.now) (InCut semantics.now.cons cuts.now) steps))
        (seen_leaves (D.look d.new) r.halted)) }
    ensures dropped { IfOk result
        (λ r. All (λ l. IsNeverTrue (D.variables d.old) l.condition) (seen_leaves (D.look d.new) r.dropped)) }
    ensures met_settled { IfOk result
        (λ r. AreSettled (IsSometimesTrue (D.variables d.old)) (D.look d.old condition.now) (seen_leaves (D.look d.new) r.met)) }
    ensures long_settled { IfOk result
        (λ r. AreSettled (IsSometimesTrue (D.variables d.old)) (D.look d.old condition.now) (seen_leaves (D.look d.new) r.long)) }
    ensures halted_settled { IfOk result
        (λ r. AreSettled (IsSometimesTrue (D.variables d.old)) (D.look d.old condition.now) (seen_leaves (D.look d.new) r.halted)) }
{
    let mut judge = Decider {};
    let mut answers = Vec::new(alloc);
    Ok(search_dropping(
        alloc,
        d,
        &mut judge,
        &mut answers,
        semantics,
        program,
        cuts,
        start,
        condition,
        steps,
    )?)
}
