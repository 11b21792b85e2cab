//! Domains with variables, whose nodes may be looked into.
ghost use Rattle.std.specs.Prelude.{◌≡◌, ◌<◌, [], ◌∷◌, ◌++◌, ◌↔◌, length, IsTrue, IfOk, OnOk};
ghost use Rattle.data_value.specs.Sorts.{IsSort};
ghost use Rattle.data_value.specs.Nodes.{Extends};
ghost use Rattle.data_value.specs.Views.{shown_in, BeginsWith, HaveOneId, IsVariable, IsViewed};

use crate::{DataSort, Domain, NoMemory, Op, Value};

/// What a node shows.
#[derive(Drop)]
pub enum View<'a, N> {
    /// The variable with this index.
    Variable(usize),
    /// This value.
    Constant(&'a Value),
    /// An operator at nodes of sorts that it takes.
    Apply(Op, &'a [N]),
}

/// A domain with variables, whose nodes may be looked into.
pub trait Symbolic: Domain {
    /// Appends a variable of a sort and answers its index. Where it finds no memory, the variables that were there are
    /// the first ones still.
    fn fresh(&mut self, sort: DataSort) -> Result<usize, NoMemory>
        requires { IsSort sort }
        ensures extends { Extends (Self.look self.old) (Self.look self.new) }
        ensures begins { BeginsWith (Self.variables self.new) (Self.variables self.old) }
        ensures index { IfOk result (λ i. i ≡ length (Self.variables self.old)) }
        ensures appended { OnOk result (Self.variables self.new ≡ Self.variables self.old ++ sort ∷ []) };

    /// A node that means the value that a valuation gives the variable with this index.
    fn variable(&mut self, index: usize) -> Result<Self::Node, NoMemory>
        requires { index < length (Self.variables self.old) }
        ensures extends { Extends (Self.look self.old) (Self.look self.new) }
        ensures same_variables { Self.variables self.new ≡ Self.variables self.old }
        ensures made { IfOk result (λ n. IsVariable (Self.look self.new) (Self.variables self.new) index n) };

    /// The sorts of the variables, in the order of their indexes. It takes no memory.
    fn sorts(&self) -> &[DataSort]
        ensures { result.now ≡ Self.variables self.now };

    /// What a node shows. It takes no memory.
    fn view<'a>(&'a self, node: &'a Self::Node) -> View<'a, Self::Node>
        requires { IsTrue (Self.look self.now node.now).valid }
        ensures { shown_in result ≡ (Self.look self.now node.now).shown };

    /// The number under which a node is kept, if it is kept under one. It takes no memory.
    fn id(&self, node: &Self::Node) -> Option<usize>
        requires { IsTrue (Self.look self.now node.now).valid }
        ensures { result ≡ (Self.look self.now node.now).id };

    /// A node is what it shows, its arguments stand lower, and nodes that are kept under one number are the same.
    ghost views: { (d : Self) → IsViewed (Self.look d) (Self.variables d) };
}

/// Whether two nodes are kept under one number. Then they are the same in all that they are. It takes no memory.
pub fn is_same<D: Symbolic>(d: &D, a: &D::Node, b: &D::Node) -> bool
    requires first { IsTrue (D.look d.now a.now).valid }
    requires second { IsTrue (D.look d.now b.now).valid }
    ensures one { IsTrue result ↔ HaveOneId (D.look d.now a.now) (D.look d.now b.now) }
    ensures same { IsTrue result → D.look d.now a.now ≡ D.look d.now b.now }
{
    match (d.id(a), d.id(b)) {
        (Some(first), Some(second)) => first == second,
        _ => false,
    }
}
