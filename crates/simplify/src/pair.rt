//! Pairs of nodes.
ghost use Rattle.std.specs.Prelude.{◌≡◌, ◌↔◌, IsTrue, Some};

use data_value::Symbolic;

/// Two nodes of one sort. Where they mean the same, the second may stand in the place of the first.
#[derive(Drop)]
pub struct Pair<N> {
    /// The node in whose place the other may stand.
    pub first: N,
    /// The node that may stand there.
    pub second: N,
}

/// Whether a node is kept under this number.
pub(crate) fn is_kept_under<D: Symbolic>(d: &D, node: &D::Node, id: usize) -> bool
    requires { IsTrue (D.look d.now node.now).valid }
    ensures { IsTrue result ↔ ((D.look d.now node.now).id ≡ Some id) }
{
    match d.id(node) {
        Some(own) => own == id,
        None => false,
    }
}
