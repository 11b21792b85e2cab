//! Sums of the multiple of a quotient and the remainder, also where these are a word's upper and lower bits.
ghost use Rattle.std.specs.Prelude.{◌≡◌, [], ◌∷◌, true, IsSome, IsTrue, IfOk, IfSome};
ghost use Rattle.data_value.specs.declared.Op.TheVariants.{Add, Udiv};
ghost use Rattle.data_value.specs.Sorts.{op_sort};
ghost use Rattle.data_value.specs.Nodes.{sorts_of};
ghost use Rattle.simplify.specs.Rewrites.{IsRewritten};
ghost use Rattle.simplify.specs.Division.{MeansOf, IsMultiple, IsDividend, IsWhole};

use crate::rewritten::Rewritten;
use crate::split::split_word;
use data_value::{NoMemory, Op, Symbolic, View, is_same};

/// What a sum comes to of the multiple of a quotient and the remainder: the dividend.
pub(crate) fn of_division<D: Symbolic>(
    d: &D,
    op: Op,
    a: &D::Node,
    b: &D::Node,
) -> Result<Option<Rewritten<D::Node>>, NoMemory>
    requires first { IsTrue (D.look d.now a.now).valid }
    requires second { IsTrue (D.look d.now b.now).valid }
    requires sorted { IsSome (op_sort op (sorts_of (D.look d.now) (a.now ∷ b.now ∷ []))) }
    ensures { IfOk result (λ o. IfSome o (IsRewritten (D.variables d.now) (D.look d.now) op (a.now ∷ b.now ∷ []))) }
{
    match op {
        Op::Add => Ok(dividend_of_sum(d, a, b)?),
        _ => Ok(None),
    }
}

// The dividend that a sum comes to, in either order.
fn dividend_of_sum<D: Symbolic>(
    d: &D,
    a: &D::Node,
    b: &D::Node,
) -> Result<Option<Rewritten<D::Node>>, NoMemory>
    requires first { IsTrue (D.look d.now a.now).valid }
    requires second { IsTrue (D.look d.now b.now).valid }
    requires sorted { IsSome (op_sort Add (sorts_of (D.look d.now) (a.now ∷ b.now ∷ []))) }
    ensures { IfOk result (λ o. IfSome o (IsRewritten (D.variables d.now) (D.look d.now) Add (a.now ∷ b.now ∷ []))) }
{
    match whole(d, a, b)? {
        Some(found) => Ok(Some(Rewritten::Node(found))),
        None => {
            match whole(d, b, a)? {
                Some(found) => Ok(Some(Rewritten::Node(found))),
                None => Ok(None),
            }
        }
    }
}

// The word that two nodes make together: the dividend of a remainder, or where the divisor was a power of two, the word of which these
// are the upper and the lower bits.
fn whole<D: Symbolic>(d: &D, product: &D::Node, rest: &D::Node) -> Result<Option<D::Node>, NoMemory>
    requires product { IsTrue (D.look d.now product.now).valid }
    requires rest { IsTrue (D.look d.now rest.now).valid }
    ensures { IfOk result (λ o. IfSome o (λ n. IsWhole (D.look d.now) product.now rest.now (D.look d.now n))) }
{
    match dividend(d, product, rest)? {
        Some(found) => Ok(Some(found)),
        None => Ok(split_word(d, product, rest)?),
    }
}

// The dividend of a remainder, where the other node is the divisor times the quotient.
fn dividend<D: Symbolic>(
    d: &D,
    product: &D::Node,
    rest: &D::Node,
) -> Result<Option<D::Node>, NoMemory>
    requires product { IsTrue (D.look d.now product.now).valid }
    requires rest { IsTrue (D.look d.now rest.now).valid }
    ensures { IfOk result (λ o. IfSome o (λ n. IsDividend (D.look d.now) product.now rest.now (D.look d.now n))) }
{
    match d.view(rest) {
        View::Apply(Op::Urem, args) => {
            match args {
                [x, y] => {
                    if is_multiple(d, product, x, y) {
                        Ok(Some(d.copy(x)?))
                    } else {
                        Ok(None)
                    }
                }
                _ => Ok(None),
            }
        }
        _ => Ok(None),
    }
}

// Whether a node is the quotient of two words times the second, in either order.
fn is_multiple<D: Symbolic>(d: &D, product: &D::Node, x: &D::Node, y: &D::Node) -> bool
    requires product { IsTrue (D.look d.now product.now).valid }
    requires dividend { IsTrue (D.look d.now x.now).valid }
    requires divisor { IsTrue (D.look d.now y.now).valid }
    ensures { result ≡ true → IsMultiple (D.look d.now) product.now x.now y.now }
{
    match d.view(product) {
        View::Apply(Op::Mul, args) => {
            match args {
                [p, q] => are_factors(d, p, q, x, y) || are_factors(d, q, p, x, y),
                _ => false,
            }
        }
        _ => false,
    }
}

// Whether the first of two nodes is the quotient of x by y, and the second is y.
fn are_factors<D: Symbolic>(d: &D, p: &D::Node, q: &D::Node, x: &D::Node, y: &D::Node) -> bool
    requires first { IsTrue (D.look d.now p.now).valid }
    requires second { IsTrue (D.look d.now q.now).valid }
    requires dividend { IsTrue (D.look d.now x.now).valid }
    requires divisor { IsTrue (D.look d.now y.now).valid }
    ensures { result ≡ true → MeansOf (D.look d.now) p.now Udiv x.now y.now × (D.look d.now q.now ≡ D.look d.now y.now) }
{
    is_quotient(d, p, x, y) && is_same(d, q, y)
}

// Whether a node is the quotient of two others.
fn is_quotient<D: Symbolic>(d: &D, node: &D::Node, x: &D::Node, y: &D::Node) -> bool
    requires node { IsTrue (D.look d.now node.now).valid }
    requires dividend { IsTrue (D.look d.now x.now).valid }
    requires divisor { IsTrue (D.look d.now y.now).valid }
    ensures { result ≡ true → MeansOf (D.look d.now) node.now Udiv x.now y.now }
{
    match d.view(node) {
        View::Apply(Op::Udiv, args) => {
            match args {
                [u, v] => is_same(d, u, x) && is_same(d, v, y),
                _ => false,
            }
        }
        _ => false,
    }
}
