//! Formulas as clauses.
ghost use Rattle.std.specs.Prelude.{◌≡◌, length, IfOk};
ghost use Rattle.data_value.specs.Nodes.{Extends};
ghost use Rattle.data_value.specs.Truth.{IsCondition};
ghost use Rattle.prover.specs.Questions.{IsQuestion, spelled};

use crate::preparing::prepared;
use crate::question::Question;
use bv_blast::{blast, words};
use data_value::{NoMemory, Symbolic, Valuation};
use map_reads::{lift, without_maps};
use refute_check::Assignment;
use std::alloc::Global;

/// The clauses of a formula, made simpler first. They have a model exactly where some valuation of the variables makes the formula true,
/// and depend on the formula as it is written alone. The only error is want of memory.
pub fn pose<D: Symbolic>(alloc: Global, d: &mut D, formula: &D::Node) -> Result<Question, NoMemory>
    requires { IsCondition (D.look d.old formula.now) }
    ensures extends { Extends (D.look d.old) (D.look d.new) }
    ensures same_variables { D.variables d.new ≡ D.variables d.old }
    ensures question { IfOk result (IsQuestion (D.variables d.old) (D.look d.old formula.now)) }
{
    let prepared = prepared(alloc, d, formula)?;
    let reads = without_maps(alloc, d, &prepared)?;
    let circuit = blast(alloc, &reads.flat)?;
    Ok(Question { reads, circuit })
}

/// The valuation that truth values for the variables of a question's clauses spell. Where they are a model, it makes the formula true.
/// The only error is want of memory.
pub fn spelled_valuation(
    alloc: Global,
    question: &Question,
    model: &Assignment,
) -> Result<Valuation, NoMemory>
    requires { length model.now ≡ question.now.circuit.clauses.vars }
    ensures { IfOk result (λ v. v ≡ spelled question.now model.now) }
{
    let words = words(alloc, &question.circuit, model)?;
    Ok(lift(alloc, &question.reads, &words)?)
}
