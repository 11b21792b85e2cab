//! Formulas without maps, as lists of nodes.
ghost use Rattle.std.specs.Prelude.{◌≡◌, ◌<◌, ◌^◌, nat_lt, length, map, All, IsTrue, ◌↔◌, IfOk, IsSome};
ghost use Rattle.std.specs.List.{list_all};
ghost use Rattle.std.specs.Option.{SomeIff};
ghost use Rattle.data_value.specs.Sorts.{IsWidth};
ghost use Rattle.data_value.specs.Values.{scalar_sort, is_scalar, IsScalar};
ghost use Rattle.data_value.specs.Flat.{HaveSorts, IsFlat, AreWords, at_places, node_sort, node_value, flat_sorts, flat_values};

use crate::compare::{fits_width, is_word, sort_of_scalar};
use crate::{DataSort, DataSorts, NoMemory, Op, Scalar, apply_scalar, sort_of};
use sqlite_items::Items;
use std::alloc::Global;

/// The places of a node's arguments, in their order.
pub type Places = Items<usize>;

/// The nodes of a formula. Each stands at a place, counted from 0.
pub type FlatNodes = Items<FlatNode>;

/// The widths of inputs, in their order.
pub type Widths = Items<u8>;

/// A word for each input, in their order.
pub type Words = Items<u64>;

/// A list of truth values and words.
pub type Scalars = Items<Scalar>;

/// A part of a formula.
#[derive(Debug, Drop)]
pub enum FlatNode {
    /// The word of the input of this number.
    Input(usize),
    /// A truth value or a word that is fixed.
    Fixed(Scalar),
    /// An operator's value at what stands at these places, which come before the node's own.
    Apply(Op, Places),
}

/// A formula without maps over inputs that are words.
#[derive(Debug, Drop)]
pub struct Flat {
    /// Its nodes, each of a sort that its operator gives for the sorts of its arguments.
    pub nodes: FlatNodes,
    /// The widths of its inputs, each from 1 to 64.
    pub widths: Widths,
    /// The place of the truth value that the formula is.
    pub root: usize,
    /// The nodes, widths and root fit each other.
    pub ghost fits: { IsFlat widths nodes root },
}

/// Whether nodes are a formula over inputs of these widths, with the truth value that it is at the place `root`: what the type
/// `Flat` asks of them. It fails only for want of memory.
pub fn is_flat(
    alloc: Global,
    nodes: &[FlatNode],
    widths: &[u8],
    root: usize,
) -> Result<bool, NoMemory>
    ensures { IfOk result (λ b. IsTrue b ↔ IsFlat widths.now nodes.now root) }
{
    match sorts_of(alloc, nodes, widths)? {
        Some(sorts) => {
            let at_root = sorts.get(root).copied();
            Ok(are_widths(widths) && at_root == Some(DataSort::Bool))
        }
        None => Ok(false),
    }
}

/// Whether there are as many words as widths, and each word is below 2 to the power of its width.
pub fn are_words(widths: &[u8], words: &[u64]) -> bool
    ensures { IsTrue result ↔ AreWords widths.now words.now }
{
    if words.len() != widths.len() {
        return false;
    }
    for i in 0..widths.len() {
        if !fits_width(widths[i], words[i]) {
            return false;
        }
    }
    true
}

/// The values of all places of a formula, where its inputs have these words: one for each, below 2 to the power of its width. It
/// fails only for want of memory.
pub fn flat_values(alloc: Global, flat: &Flat, words: &Words) -> Result<Scalars, NoMemory>
    requires { AreWords flat.now.widths words.now }
    ensures { IfOk result (λ vs. vs ≡ flat_values flat.now.widths words.now flat.now.nodes) }
{
    let widths = flat.widths.as_slice();
    let mut values = Items::new(alloc);
    for node in flat.nodes.as_slice() {
        let value = value_of_node(alloc, widths, words.as_slice(), values.as_slice(), node)?;
        values.push(value)?;
    }
    Ok(values)
}

/// What a list has at places that are in it.
fn at_places<T: Copy>(alloc: Global, items: &[T], places: &[usize]) -> Result<Items<T>, NoMemory>
    requires { IsTrue (list_all (λ p. nat_lt p (length items.now)) places.now) }
    ensures { IfOk result (λ found. (d : T) → found ≡ at_places d items.now places.now) }
{
    let mut found = Items::new(alloc);
    for place in places {
        found.push(items[*place])?;
    }
    Ok(found)
}

fn are_below(places: &[usize], n: usize) -> bool
    ensures { result ≡ list_all (λ p. nat_lt p n) places.now }
{
    places.iter().all(|place| *place < n)
}

fn are_widths(widths: &[u8]) -> bool
    ensures { IsTrue result ↔ All IsWidth widths.now }
{
    widths.iter().all(|width| 1 <= *width && *width <= 64)
}

fn is_scalar(scalar: Scalar) -> bool
    ensures { result ≡ is_scalar scalar }
{
    match scalar {
        Scalar::Flag(_) => true,
        Scalar::Bits { width, bits } => is_word(width, bits),
    }
}

/// The sort of a node after places of these sorts, None where it isn't lawful there.
fn sort_of_node(
    alloc: Global,
    widths: &[u8],
    sorts: &[DataSort],
    node: &FlatNode,
) -> Result<Option<DataSort>, NoMemory>
    ensures { IfOk result (λ sort. sort ≡ node_sort widths.now sorts.now node.now) }
{
    match node {
        FlatNode::Input(i) => {
            if *i < widths.len() {
                Ok(Some(DataSort::Bits(widths[*i])))
            } else {
                Ok(None)
            }
        }
        FlatNode::Fixed(scalar) => {
            if is_scalar(*scalar) {
                Ok(Some(sort_of_scalar(*scalar)))
            } else {
                Ok(None)
            }
        }
        FlatNode::Apply(op, places) => {
            let places = places.as_slice();
            if are_below(places, sorts.len()) {
                let args = at_places(alloc, sorts, places)?;
                Ok(sort_of(*op, args.as_slice()))
            } else {
                Ok(None)
            }
        }
    }
}

/// The sorts of all places, None where some node isn't lawful.
fn sorts_of(alloc: Global, nodes: &[FlatNode], widths: &[u8]) -> Result<Option<DataSorts>, NoMemory>
    ensures { IfOk result (λ sorts. SomeIff sorts (HaveSorts widths.now nodes.now) (flat_sorts widths.now nodes.now)) }
{
    let mut sorts = Items::new(alloc);
    for node in nodes {
        match sort_of_node(alloc, widths, sorts.as_slice(), node)? {
            Some(sort) => sorts.push(sort)?,
            None => return Ok(None),
        }
    }
    Ok(Some(sorts))
}

/// The value of a node where the places before it have these values.
fn value_of_node(
    alloc: Global,
    widths: &[u8],
    words: &[u64],
    values: &[Scalar],
    node: &FlatNode,
) -> Result<Scalar, NoMemory>
    requires words { AreWords widths.now words.now }
    requires scalars { All IsScalar values.now }
    requires sorted { IsSome (node_sort widths.now (map scalar_sort values.now) node.now) }
    ensures { IfOk result (λ value. value ≡ node_value widths.now words.now values.now node.now) }
{
    match node {
        FlatNode::Input(i) => {
            Ok(Scalar::Bits {
                width: widths[*i],
                bits: words[*i],
            })
        }
        FlatNode::Fixed(scalar) => Ok(*scalar),
        FlatNode::Apply(op, places) => {
            let args = at_places(alloc, values, places.as_slice())?;
            Ok(apply_scalar(*op, args.as_slice()))
        }
    }
}
