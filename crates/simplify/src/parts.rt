//! Parts of words that were widened or put together, and words that are widened by nothing.
ghost use Rattle.std.specs.Prelude.{◌≡◌, ◌⊎◌, ◌-◌, ◌+◌, [], ◌∷◌, true, IsSome, IsTrue, IfOk, IfSome};
ghost use Rattle.data_value.specs.declared.Op.TheVariants.{Concat, Extract, Zext, Sext};
ghost use Rattle.data_value.specs.declared.DataSort.TheVariants.{Bits as BitsSort};
ghost use Rattle.data_value.specs.Sorts.{op_sort};
ghost use Rattle.data_value.specs.Nodes.{Apply, sorts_of};
ghost use Rattle.simplify.specs.Rewrites.{IsRewritten};
ghost use Rattle.simplify.specs.Parts.{IsInner, IsWidened, IsWithin};

use crate::rewritten::Rewritten;
use data_value::{DataSort, NoMemory, Op, Scalar, Symbolic, View};
use sqlite_items::Items;
use std::alloc::Global;

/// Bits of a node: from `hi` down to `lo`.
#[derive(Drop)]
pub(crate) struct Span<N> {
    pub node: N,
    pub hi: u8,
    pub lo: u8,
}

/// What bits of a node come to, where the operator that it shows is looked at.
#[derive(Drop)]
pub(crate) enum Inner<N> {
    /// This word, under every valuation.
    Known(Scalar),
    /// These bits of an argument.
    Bits(Span<N>),
    /// The node shows no operator whose bits are those of one argument.
    Unclear,
}

/// What bits of a word come to: zeros that were put above a narrower word, or bits of the words that it was made of.
pub(crate) fn part<D: Symbolic>(
    alloc: Global,
    d: &D,
    hi: u8,
    lo: u8,
    a: &D::Node,
) -> Result<Rewritten<D::Node>, NoMemory>
    requires valid { IsTrue (D.look d.now a.now).valid }
    requires sorted { IsSome (op_sort (Extract hi lo) (sorts_of (D.look d.now) (a.now ∷ []))) }
    ensures { IfOk result (IsRewritten (D.variables d.now) (D.look d.now) (Extract hi lo) (a.now ∷ [])) }
{
    let mut rest = Span {
        node: d.copy(a)?,
        hi,
        lo,
    };
    loop {
        match inside(d, &rest)? {
            Inner::Known(scalar) => return Ok(Rewritten::Known(scalar)),
            Inner::Bits(part) => rest = part,
            Inner::Unclear => return Ok(cut(alloc, d, &rest)?),
        }
    }
}

// Bits of a node, which are the node where they are all its bits.
fn cut<D: Symbolic>(
    alloc: Global,
    d: &D,
    part: &Span<D::Node>,
) -> Result<Rewritten<D::Node>, NoMemory>
    requires valid { IsTrue (D.look d.now part.now.node).valid }
    requires sorted { IsSome (op_sort (Extract part.now.hi part.now.lo) (sorts_of (D.look d.now) (part.now.node ∷ []))) }
    ensures { IfOk result (IsRewritten (D.variables d.now) (D.look d.now) (Extract part.now.hi part.now.lo) (part.now.node ∷ [])) }
{
    let copy = d.copy(&part.node)?;
    if is_whole(d.sort(&part.node), part.hi, part.lo) {
        return Ok(Rewritten::Node(copy));
    }
    let mut nodes = Items::new(alloc);
    nodes.push(copy)?;
    Ok(Rewritten::Apply(
        Op::Extract {
            hi: part.hi,
            lo: part.lo,
        },
        nodes,
    ))
}

// Whether these are all the bits of words of a sort.
fn is_whole(sort: DataSort, hi: u8, lo: u8) -> bool
    ensures { result ≡ true → (sort ≡ BitsSort (hi + 1)) × (lo ≡ 0) }
{
    match sort {
        DataSort::Bits(width) => lo == 0 && hi < width && width - hi == 1,
        _ => false,
    }
}

// What bits of a node come to, by the operator that it shows.
fn inside<D: Symbolic>(d: &D, part: &Span<D::Node>) -> Result<Inner<D::Node>, NoMemory>
    requires valid { IsTrue (D.look d.now part.now.node).valid }
    requires sorted { IsSome (op_sort (Extract part.now.hi part.now.lo) (sorts_of (D.look d.now) (part.now.node ∷ []))) }
    ensures { IfOk result (IsInner (D.variables d.now) (D.look d.now) part.now) }
{
    match d.view(&part.node) {
        View::Apply(Op::Zext(_), args) => {
            match args {
                [x] => Ok(of_widened(d, part, x)?),
                _ => Ok(Inner::Unclear),
            }
        }
        View::Apply(Op::Concat, args) => {
            match args {
                [x, y] => Ok(of_joined(d, part, x, y)?),
                _ => Ok(Inner::Unclear),
            }
        }
        _ => Ok(Inner::Unclear),
    }
}

// What bits of a word that was widened by zeros come to.
fn of_widened<D: Symbolic>(
    d: &D,
    part: &Span<D::Node>,
    x: &D::Node,
) -> Result<Inner<D::Node>, NoMemory>
    requires valid { IsTrue (D.look d.now part.now.node).valid }
    requires sorted { IsSome (op_sort (Extract part.now.hi part.now.lo) (sorts_of (D.look d.now) (part.now.node ∷ []))) }
    requires argument { IsTrue (D.look d.now x.now).valid }
    requires widened { IsWidened (D.look d.now) part.now.node x.now }
    ensures { IfOk result (IsInner (D.variables d.now) (D.look d.now) part.now) }
{
    let (hi, lo) = (part.hi, part.lo);
    if is_within(d.sort(x), hi, lo) {
        return Ok(Inner::Bits(Span {
            node: d.copy(x)?,
            hi,
            lo,
        }));
    }
    match (d.sort(x), count(hi, lo)) {
        (DataSort::Bits(width), Some(count)) => {
            if width <= lo {
                Ok(Inner::Known(Scalar::Bits {
                    width: count,
                    bits: 0,
                }))
            } else {
                Ok(Inner::Unclear)
            }
        }
        _ => Ok(Inner::Unclear),
    }
}

// How many bits these are.
fn count(hi: u8, lo: u8) -> Option<u8>
    ensures { IfSome result (λ n. n ≡ hi - lo + 1) }
{
    if lo <= hi && hi < 64 {
        Some(hi - lo + 1)
    } else {
        None
    }
}

// What bits of two words come to, of which the second stands below the first.
fn of_joined<D: Symbolic>(
    d: &D,
    part: &Span<D::Node>,
    x: &D::Node,
    y: &D::Node,
) -> Result<Inner<D::Node>, NoMemory>
    requires valid { IsTrue (D.look d.now part.now.node).valid }
    requires sorted { IsSome (op_sort (Extract part.now.hi part.now.lo) (sorts_of (D.look d.now) (part.now.node ∷ []))) }
    requires first { IsTrue (D.look d.now x.now).valid }
    requires second { IsTrue (D.look d.now y.now).valid }
    requires joined { (D.look d.now part.now.node).shown ≡ Apply Concat (x.now ∷ y.now ∷ []) }
    ensures { IfOk result (IsInner (D.variables d.now) (D.look d.now) part.now) }
{
    let (hi, lo) = (part.hi, part.lo);
    if is_within(d.sort(y), hi, lo) {
        return Ok(Inner::Bits(Span {
            node: d.copy(y)?,
            hi,
            lo,
        }));
    }
    match d.sort(y) {
        DataSort::Bits(width) => {
            if width <= lo && width <= hi && is_within(d.sort(x), hi - width, lo - width) {
                let node = d.copy(x)?;
                Ok(Inner::Bits(Span {
                    node,
                    hi: hi - width,
                    lo: lo - width,
                }))
            } else {
                Ok(Inner::Unclear)
            }
        }
        _ => Ok(Inner::Unclear),
    }
}

// Whether these are bits of words of a sort.
fn is_within(sort: DataSort, hi: u8, lo: u8) -> bool
    ensures { result ≡ true → IsWithin sort hi lo }
{
    match sort {
        DataSort::Bits(width) => lo <= hi && hi < width,
        _ => false,
    }
}

/// What an operator comes to that widens a word to the width that it has.
pub(crate) fn unwidened<D: Symbolic>(
    d: &D,
    op: Op,
    n: u8,
    a: &D::Node,
) -> Result<Option<Rewritten<D::Node>>, NoMemory>
    requires valid { IsTrue (D.look d.now a.now).valid }
    requires sorted { IsSome (op_sort op (sorts_of (D.look d.now) (a.now ∷ []))) }
    requires widens { (op ≡ Zext n) ⊎ (op ≡ Sext n) }
    ensures { IfOk result (λ o. IfSome o (IsRewritten (D.variables d.now) (D.look d.now) op (a.now ∷ []))) }
{
    match d.sort(a) {
        DataSort::Bits(width) => {
            if width == n {
                Ok(Some(Rewritten::Node(d.copy(a)?)))
            } else {
                Ok(None)
            }
        }
        _ => Ok(None),
    }
}
