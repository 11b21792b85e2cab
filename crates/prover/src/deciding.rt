//! Whether some valuation makes a formula true.
ghost use Rattle.std.specs.Prelude.{◌≡◌, ◌↔◌, ⊤, IfOk};
ghost use Rattle.data_value.specs.Nodes.{Extends};
ghost use Rattle.data_value.specs.Truth.{IsCondition};
ghost use Rattle.prover.specs.Answers.{MatchAnswer, IsNever, IsHolds, IsNeverTrue, IsSometimesTrue, IsTrueUnder};
ghost use Rattle.prover.specs.Usage.{AreUnusedZero};

use crate::answer::Answer;
use crate::clearing::cleared;
use crate::posing::{pose, spelled_valuation};
use crate::usage::used_variables;
use clause_search::{Found, search};
use data_value::{NoMemory, Symbolic};
use std::alloc::Global;

/// Whether no valuation of the variables makes a formula true, or a valuation that does. In it a variable that the formula doesn't use
/// is false, zero or the map that is zero everywhere. Which valuation it is depends on the formula as it is written alone. The only
/// error is want of memory: there is no limit, and each formula is decided.
pub fn decide<D: Symbolic>(alloc: Global, d: &mut D, formula: &D::Node) -> Result<Answer, NoMemory>
    requires { IsCondition (D.look d.old formula.now) }
    ensures extends { Extends (D.look d.old) (D.look d.new) }
    ensures same_variables { D.variables d.new ≡ D.variables d.old }
    ensures never { IfOk result (λ a. IsNever a ↔ IsNeverTrue (D.variables d.old) (D.look d.old formula.now)) }
    ensures holds { IfOk result (λ a. IsHolds a ↔ IsSometimesTrue (D.variables d.old) (D.look d.old formula.now)) }
    ensures valuation { IfOk result (λ a. MatchAnswer a ⊤ (IsTrueUnder (D.variables d.old) (D.look d.old formula.now))) }
    ensures unused { IfOk result (λ a. MatchAnswer a ⊤ (AreUnusedZero (D.look d.old) (D.look d.old formula.now))) }
{
    let used = used_variables(alloc, d, formula)?;
    let question = pose(alloc, d, formula)?;
    match search(alloc, &question.circuit.clauses)? {
        Found::Model(model) => {
            let spelled = spelled_valuation(alloc, &question, &model)?;
            let cleared = cleared(alloc, d.sorts(), used.as_slice(), &spelled)?;
            Ok(Answer::Holds(cleared))
        }
        Found::Refuted(_) => Ok(Answer::Never),
    }
}
