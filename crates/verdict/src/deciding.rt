//! Questions, decided one after the other.
ghost use Rattle.std.specs.Prelude.{◌≡◌, All, IfOk};
ghost use Rattle.data_value.specs.Nodes.{Extends};
ghost use Rattle.data_value.specs.Truth.{IsCondition};
ghost use Rattle.point_questions.specs.Questions.{seen_questions};
ghost use Rattle.verdict.specs.Decided.{IsFirstTrue};

use data_value::{Symbolic, Valuation};
use no_memory::NoMemory;
use point_questions::{Flaw, Question};
use prover::{Answer, decide};
use std::alloc::Global;

/// A flaw whose question a valuation makes true.
#[derive(Drop)]
pub(crate) struct FoundFlaw {
    /// What is wrong.
    pub flaw: Flaw,
    /// A value for each of the domain's variables, of which the point's are the first.
    pub values: Valuation,
}

/// The first question that some valuation makes true, with such a valuation. The questions behind it aren't decided.
pub(crate) fn first_true<D: Symbolic>(
    alloc: Global,
    d: &mut D,
    questions: &[Question<D::Node>],
) -> Result<Option<FoundFlaw>, NoMemory>
    requires { All (λ y. IsCondition y.formula) (seen_questions (D.look d.old) questions.now) }
    ensures extends { Extends (D.look d.old) (D.look d.new) }
    ensures same_variables { D.variables d.new ≡ D.variables d.old }
    ensures first { IfOk result (IsFirstTrue (D.variables d.old) (seen_questions (D.look d.old) questions.now)) }
{
    for question in questions {
        match decide(alloc, d, &question.formula)? {
            Answer::Never => {}
            Answer::Holds(values) => {
                let flaw = question.flaw;
                return Ok(Some(FoundFlaw { flaw, values }));
            }
        }
    }
    Ok(None)
}
