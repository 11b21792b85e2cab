//! Formulas that are simpler before they become clauses.
ghost use Rattle.std.specs.Prelude.{◌≡◌, IfOk};
ghost use Rattle.data_value.specs.Nodes.{Extends};
ghost use Rattle.data_value.specs.Truth.{IsCondition};
ghost use Rattle.prover.specs.Answers.{IsTrueWith};

use crate::joining::join;
use crate::splitting::split;
use data_value::{NoMemory, Symbolic};
use simplify::simplify;
use std::alloc::Global;

/// A condition that is true under the same valuations of the variables. Of two nodes that it demands to be equal one stands for both,
/// so sides that compute alike from equal nodes become one node.
pub(crate) fn prepared<D: Symbolic>(
    alloc: Global,
    d: &mut D,
    formula: &D::Node,
) -> Result<D::Node, NoMemory>
    requires { IsCondition (D.look d.old formula.now) }
    ensures extends { Extends (D.look d.old) (D.look d.new) }
    ensures same_variables { D.variables d.new ≡ D.variables d.old }
    ensures means { IfOk result (λ n. IsTrueWith (D.variables d.old) (D.look d.old formula.now) (D.look d.new n)) }
{
    let simpler = simplify(alloc, d, formula)?;
    let parts = split(alloc, d, &simpler)?;
    let joined = join(alloc, d, &parts)?;
    Ok(simplify(alloc, d, &joined)?)
}
