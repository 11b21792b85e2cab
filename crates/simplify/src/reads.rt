//! Reads of maps into which words were put.
ghost use Rattle.std.specs.Prelude.{◌≡◌, ◌∷◌, [], IsTrue, IsSome, IfOk, IfSome};
ghost use Rattle.data_value.specs.declared.Op.TheVariants.{Get};
ghost use Rattle.data_value.specs.Sorts.{op_sort};
ghost use Rattle.data_value.specs.Nodes.{sorts_of};
ghost use Rattle.simplify.specs.Rewrites.{IsRewritten};
ghost use Rattle.simplify.specs.Past.{IsPast};

use crate::operator::two;
use crate::rewritten::Rewritten;
use crate::same::same_word;
use data_value::{NoMemory, Op, Symbolic, View};
use sqlite_items::Items;
use std::alloc::Global;

/// What a read of a map comes to, where the last put into the map is looked at.
#[derive(Drop)]
pub(crate) enum Past<N> {
    /// This word, which was put at the key.
    Word(N),
    /// The read of this map, which was there before the put, at the key.
    Before(N),
    /// Nothing was put last, or it isn't known whether at this key.
    Unclear,
}

/// What a read of a map at a key comes to: a word that was put at the key, or the read of an earlier map. Puts are passed as far as it
/// is known that they were at other keys.
pub(crate) fn read<D: Symbolic>(
    alloc: Global,
    d: &D,
    map: &D::Node,
    key: &D::Node,
) -> Result<Rewritten<D::Node>, NoMemory>
    requires map { IsTrue (D.look d.now map.now).valid }
    requires key { IsTrue (D.look d.now key.now).valid }
    requires sorted { IsSome (op_sort Get (sorts_of (D.look d.now) (map.now ∷ key.now ∷ []))) }
    ensures { IfOk result (IsRewritten (D.variables d.now) (D.look d.now) Get (map.now ∷ key.now ∷ [])) }
{
    let mut rest = d.copy(map)?;
    loop {
        match past_last(d, &rest, key)? {
            Past::Word(word) => return Ok(Rewritten::Node(word)),
            Past::Before(before) => rest = before,
            Past::Unclear => {
                let args = two(alloc, d, &rest, key)?;
                return Ok(Rewritten::Apply(Op::Get, Items::from_vec(args)));
            }
        }
    }
}

// What a read of a map at a key comes to, past the last put.
fn past_last<D: Symbolic>(d: &D, map: &D::Node, key: &D::Node) -> Result<Past<D::Node>, NoMemory>
    requires map { IsTrue (D.look d.now map.now).valid }
    requires key { IsTrue (D.look d.now key.now).valid }
    requires sorted { IsSome (op_sort Get (sorts_of (D.look d.now) (map.now ∷ key.now ∷ []))) }
    ensures { IfOk result (IsPast (D.variables d.now) (D.look d.now) map.now key.now) }
{
    match d.view(map) {
        View::Apply(Op::Put, args) => {
            match args {
                [before, at, word] => {
                    match same_word(d, at, key) {
                        Some(true) => Ok(Past::Word(d.copy(word)?)),
                        Some(false) => Ok(Past::Before(d.copy(before)?)),
                        None => Ok(Past::Unclear),
                    }
                }
                _ => Ok(Past::Unclear),
            }
        }
        _ => Ok(Past::Unclear),
    }
}
