//! Makers of nodes that mean values.
ghost use Rattle.std.specs.Prelude.{◌≡◌, List, IsTrue, IsSome, IfOk};
ghost use Rattle.data_value.specs.declared.DataSort.{DataSort};
ghost use Rattle.data_value.specs.Sorts.{op_sort};
ghost use Rattle.data_value.specs.Values.{IsValue};
ghost use Rattle.data_value.specs.Nodes.{Seen, Extends, AllValid, sorts_of, IsConstant, IsApplied, IsLawful};

use crate::{DataSort, NoMemory, Op, Scalar, Value};

/// A domain makes nodes, each of which means a value under each valuation of the domain's variables. Every call keeps
/// every earlier node as it is, also where it finds no memory.
pub trait Domain {
    /// A node. It may be dropped at any place.
    type Node: Drop;

    /// What each node is.
    ghost look: { Self → Self.Node → Seen Self.Node };

    /// The sorts of the variables.
    ghost variables: { Self → List DataSort };

    /// A node that means `value` under every valuation. It is known where `value` is a scalar.
    fn constant(&mut self, value: &Value) -> Result<Self::Node, NoMemory>
        requires { IsValue value.now }
        ensures extends { Extends (look self.old) (look self.new) }
        ensures same_variables { variables self.new ≡ variables self.old }
        ensures made { IfOk result (λ n. IsConstant (look self.new) value.now n) };

    /// A node that means the value of `op` at nodes of sorts that it takes. It is known where it is a scalar and all
    /// arguments are known, and as a tree it has at most one node more than they have together.
    fn apply(&mut self, op: Op, args: &[Self::Node]) -> Result<Self::Node, NoMemory>
        requires valid { AllValid (look self.old) args.now }
        requires sorted { IsSome (op_sort op (sorts_of (look self.old) args.now)) }
        ensures extends { Extends (look self.old) (look self.new) }
        ensures same_variables { variables self.new ≡ variables self.old }
        ensures made { IfOk result (λ n. IsApplied (look self.old) (look self.new) op args.now n) };

    /// A node that is the same in all that it is.
    fn copy(&self, node: &Self::Node) -> Result<Self::Node, NoMemory>
        requires { IsTrue (look self.now node.now).valid }
        ensures { IfOk result (λ n. look self.now n ≡ look self.now node.now) };

    /// The sort of a node. It takes no memory.
    fn sort(&self, node: &Self::Node) -> DataSort
        requires { IsTrue (look self.now node.now).valid }
        ensures { result ≡ (look self.now node.now).sort };

    /// The scalar that a node is known to mean under every valuation. It takes no memory.
    fn known(&self, node: &Self::Node) -> Option<Scalar>
        requires { IsTrue (look self.now node.now).valid }
        ensures { result ≡ (look self.now node.now).known };

    /// Nodes mean values of their sorts, and what is known of them.
    ghost laws: { (d : Self) → IsLawful (look d) (variables d) };
}
