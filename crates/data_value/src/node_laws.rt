//! Laws of nodes, in every domain. Each function does nothing; its contract is the law.
ghost use Rattle.data_value.specs.NodeLaws.{MeansItsSort, HasSort, MeansWhatIsKnown, DependsOnVariables};

use crate::{Domain, Symbolic};

/// Under a valuation of the domain's variables a valid node means a value of its sort, which is a sort in range. What
/// it is known as is a scalar of that sort, which it means under every valuation.
pub fn nodes_mean_their_sorts<D: Domain>()
    ensures values { (d : D) (n : D.Node) → MeansItsSort (D.look d) (D.variables d) n }
    ensures sorts { (d : D) (n : D.Node) → HasSort (D.look d) n }
    ensures known { (d : D) (n : D.Node) → MeansWhatIsKnown (D.look d) n }
{}

/// The meaning of a valid node depends on the values of the domain's variables alone, so a node that was there before a
/// variable was appended doesn't depend on that variable.
pub fn nodes_depend_on_variables<D: Symbolic>()
    ensures { (d : D) (n : D.Node) → DependsOnVariables (D.look d) (D.variables d) n }
{}
