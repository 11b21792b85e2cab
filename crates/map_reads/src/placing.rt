//! Where the nodes of lines stand in a draft.
ghost use Rattle.std.specs.Prelude.{◌≡◌, ◌<◌, length, slice_get, IfOk, All, Some};
ghost use Rattle.map_reads.specs.Placing.{IsScalarAt, PointDown, IsChain, IsApplication};
ghost use Rattle.map_reads.specs.declared.placing.Place.TheVariants.{Scalar};

use crate::draft::Draft;
use data_value::{NoMemory, Op};
use std::alloc::Global;

/// A word that is put at a key, both by their places.
#[derive(Clone, Copy, Debug, Drop)]
pub(crate) struct Put {
    pub key: usize,
    pub word: usize,
}

/// Where the node of a line stands.
#[derive(Clone, Copy, Debug, Drop)]
pub(crate) enum Place {
    /// A truth value or a word, at this place.
    Scalar(usize),
    /// A map that is a variable or a constant. It has no place.
    Map,
    /// The map of an earlier line after a word was put at a key. It has no place.
    Over(usize, Put),
}

/// The words that were put into a map at keys, the last one first, and the line of the map into which they were put.
#[derive(Debug, Drop)]
pub(crate) struct Chain {
    pub puts: Vec<Put>,
    pub base: usize,
}

/// The place of a scalar's line.
pub(crate) fn scalar_at(places: &[Place], line: usize) -> usize
    requires { IsScalarAt places.now line }
    ensures { slice_get places.now line ≡ Some (Scalar result) }
{
    match places.get(line) {
        Some(Place::Scalar(place)) => *place,
        _ => unreachable!(),
    }
}

/// The words that were put into the map of a line.
pub(crate) fn puts_into(alloc: Global, places: &[Place], map: usize) -> Result<Chain, NoMemory>
    requires within { map < length places.now }
    requires down { PointDown places.now }
    ensures { IfOk result (IsChain places.now map) }
{
    let mut puts = Vec::new(alloc);
    let mut base = map;
    while let Place::Over(below, put) = places[base] {
        puts.push(put)?;
        base = below;
    }
    Ok(Chain { puts, base })
}

/// The place of an operator at the scalars of lines.
pub(crate) fn operator(
    alloc: Global,
    draft: &mut Draft,
    places: &[Place],
    op: Op,
    lines: &[usize],
) -> Result<usize, NoMemory>
    requires { All (IsScalarAt places.now) lines.now }
    ensures { IfOk result (IsApplication places.now lines.now op draft.old draft.new) }
{
    let mut args = Vec::new(alloc);
    for line in lines {
        args.push(scalar_at(places, *line))?;
    }
    draft.apply(alloc, op, args.as_slice())
}
