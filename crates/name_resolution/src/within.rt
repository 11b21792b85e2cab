// Whether the limits are kept.
ghost use Rattle.std.specs.Prelude.{◌≡◌, ◌↔◌, ◌||◌, IsTrue, map, option_copied, bytes_eq, codes};
ghost use Rattle.name_resolution.specs.Known.{vocabulary_of, con_of};
ghost use Rattle.name_resolution.specs.Operators.{are_numbers_within};
ghost use Rattle.name_resolution.specs.Within.{argument_sorts, asked, is_within_place, are_within_places, IsWithinTree, is_within_sort};

use crate::entries::are_entries;
use crate::known::Known;
use crate::numbers::{bits, fits_place, is_width};
use crate::size::is_short;
use rule_text::{RawSort, RawTree};
use sexp_text::Name;
use sort_term::Sort;
use sqlite_items::at;

/// Whether a tree, which stands where nothing tells a width, keeps all limits: it has at most 4,096 forms, and its numbers
/// keep theirs. It takes no memory.
pub fn is_within_tree(known: &Known<'_>, raw: &RawTree) -> bool
    ensures { IsTrue result ↔ IsWithinTree (vocabulary_of known.now) raw.now }
{
    is_short(raw) && is_within(known, raw, None)
}

/// Whether the widths of a sort are from 1 to 64. It takes no memory.
pub fn is_within_sort(raw: &RawSort) -> bool
    ensures { result ≡ is_within_sort raw.now }
{
    match raw {
        RawSort::Bool | RawSort::Named(_) => true,
        RawSort::Bits(width) => is_width(*width),
        RawSort::Map(key, word) => is_width(*key) && is_width(*word),
    }
}

// Whether the numbers of a tree in a place of this sort keep their limits.
#[cycle(within)]
fn is_within(known: &Known<'_>, raw: &RawTree, place: Option<&Sort>) -> bool
    ensures { result ≡ is_within_place (option_copied place.entry) (asked (vocabulary_of known.now) raw.now) }
{
    match raw {
        RawTree::Word(_) | RawTree::Flag(_) => true,
        RawTree::Number(number) => fits_place(place, *number),
        RawTree::Bits(width, number) => bits(*width, *number).is_some(),
        RawTree::Map { key, word, entries } => are_entries(*key, *word, entries.as_slice()),
        RawTree::Con(name, args) => are_within(known, args.as_slice(), argument_sorts(known, name)),
        RawTree::Op {
            name,
            numbers,
            args,
        } => are_numbers_within(name, numbers.as_slice())
            && are_within(known, args.as_slice(), &[]),
    }
}

// Whether the numbers of arguments in places of these sorts do.
#[cycle(within)]
fn are_within(known: &Known<'_>, raws: &[RawTree], sorts: &[Sort]) -> bool
    ensures { result ≡ are_within_places sorts.now (map (asked (vocabulary_of known.now)) raws.now) }
{
    for i in 0..raws.len() {
        if !is_within(known, &raws[i], at(sorts, i)) {
            return false;
        }
    }
    true
}

// The sorts of a constructor's arguments; none for an unknown name.
fn argument_sorts<'a>(known: &Known<'a>, name: &Name) -> &'a [Sort]
    ensures { result.now ≡ argument_sorts (con_of (vocabulary_of known.now) name.now) }
{
    match known.con(name) {
        Some((_, con)) => con.args.as_slice(),
        None => &[],
    }
}

// Whether the numbers behind an operator's name keep their limits.
fn are_numbers_within(name: &Name, numbers: &[u64]) -> bool
    ensures { result ≡ are_numbers_within name.now numbers.now }
{
    match numbers {
        [width] => !is_extension(name) || is_width(*width),
        _ => true,
    }
}

// Whether an operator extends a word to a width.
fn is_extension(name: &Name) -> bool
    ensures { result ≡ (bytes_eq name.now (codes "zext") || bytes_eq name.now (codes "sext")) }
{
    name.as_slice() == "zext".as_bytes() || name.as_slice() == "sext".as_bytes()
}
