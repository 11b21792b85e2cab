//! Words of which one node is the upper bits, and another the lower ones.
ghost use Rattle.std.specs.Prelude.{◌≡◌, ◌-◌, ◌^◌, true, IsTrue, IfOk, IfSome};
ghost use Rattle.simplify.specs.Split.{IsKnownWord, IsMovedDown, IsCleared, IsSplit};

use crate::sums::ones;
use data_value::{NoMemory, Op, Scalar, Symbolic, View, is_same};

/// The word of which one node is the upper bits, and the other is the lower ones.
pub(crate) fn split_word<D: Symbolic>(
    d: &D,
    upper: &D::Node,
    lower: &D::Node,
) -> Result<Option<D::Node>, NoMemory>
    requires upper { IsTrue (D.look d.now upper.now).valid }
    requires lower { IsTrue (D.look d.now lower.now).valid }
    ensures { IfOk result (λ o. IfSome o (λ n. IsSplit (D.look d.now) upper.now lower.now (D.look d.now n))) }
{
    match d.view(lower) {
        View::Apply(Op::BvAnd, args) => {
            match args {
                [x, mask] => {
                    match cleared(d, upper, x) {
                        Some(count) => {
                            if is_mask(d, mask, count) {
                                Ok(Some(d.copy(x)?))
                            } else {
                                Ok(None)
                            }
                        }
                        None => Ok(None),
                    }
                }
                _ => Ok(None),
            }
        }
        _ => Ok(None),
    }
}

// How many lower bits of x a node clears: x, moved down and up again by one known number of bits.
fn cleared<D: Symbolic>(d: &D, node: &D::Node, x: &D::Node) -> Option<u64>
    requires node { IsTrue (D.look d.now node.now).valid }
    requires word { IsTrue (D.look d.now x.now).valid }
    ensures { IfSome result (IsCleared (D.look d.now) node.now x.now) }
{
    match d.view(node) {
        View::Apply(Op::Shl, args) => {
            match args {
                [inner, up] => {
                    match moved_down(d, inner, x) {
                        Some(count) => if is_word(d, up, count) {
                            Some(count)
                        } else {
                            None
                        },
                        None => None,
                    }
                }
                _ => None,
            }
        }
        _ => None,
    }
}

// By how many bits a node is x, moved down, if this number is known.
fn moved_down<D: Symbolic>(d: &D, node: &D::Node, x: &D::Node) -> Option<u64>
    requires node { IsTrue (D.look d.now node.now).valid }
    requires word { IsTrue (D.look d.now x.now).valid }
    ensures { IfSome result (IsMovedDown (D.look d.now) node.now x.now) }
{
    match d.view(node) {
        View::Apply(Op::Lshr, args) => {
            match args {
                [y, down] => {
                    match (is_same(d, y, x), d.known(down)) {
                        (true, Some(Scalar::Bits { bits, .. })) => Some(bits),
                        _ => None,
                    }
                }
                _ => None,
            }
        }
        _ => None,
    }
}

// Whether a node is known as the word of which this many lower bits are set.
fn is_mask<D: Symbolic>(d: &D, node: &D::Node, count: u64) -> bool
    requires { IsTrue (D.look d.now node.now).valid }
    ensures { result ≡ true → IsKnownWord (D.look d.now node.now) (2 ^ count - 1) }
{
    count < 64 && is_word(d, node, ones(count as u8))
}

// Whether a node is known as this word, of whatever width.
fn is_word<D: Symbolic>(d: &D, node: &D::Node, number: u64) -> bool
    requires { IsTrue (D.look d.now node.now).valid }
    ensures { result ≡ true → IsKnownWord (D.look d.now node.now) number }
{
    match d.known(node) {
        Some(Scalar::Bits { bits, .. }) => bits == number,
        _ => false,
    }
}
