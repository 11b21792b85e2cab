//! The parts of a condition: what it joins by "and".
ghost use Rattle.std.specs.Prelude.{◌≡◌, ◌<◌, ◌+◌, All, IfOk, OnOk, length};
ghost use Rattle.data_value.specs.Nodes.{Seen};
ghost use Rattle.data_value.specs.Truth.{IsCondition};
ghost use Rattle.node_list.specs.Listed.{AreLines};
ghost use Rattle.prover.specs.Parts.{IsSplit};
ghost use Rattle.prover.specs.Splitting.{IsLastMark, IsSplitting, AreMarkedMore, AreTwoIn, IsPairAt, ArePaired};

use crate::parts::Parts;
use data_value::{NoMemory, Op, Symbolic};
use node_list::{Line, Made, listed};
use simplify::Pair;
use std::alloc::Global;

/// The parts of a condition. An equation that it joins is a pair, and whatever else it joins is one of the others.
pub(crate) fn split<D: Symbolic>(
    alloc: Global,
    d: &D,
    root: &D::Node,
) -> Result<Parts<D::Node>, NoMemory>
    requires { IsCondition (D.look d.now root.now) }
    ensures { IfOk result (IsSplit (D.look d.now) (D.look d.now root.now)) }
{
    let lines = listed(alloc, d, root)?;
    let mut joined = only_last(alloc, lines.len())?;
    let mut parts = Parts {
        pairs: Vec::new(alloc),
        others: Vec::new(alloc),
    };
    for done in 0..lines.len() {
        let place = lines.len() - 1 - done;
        split_line(d, lines.as_slice(), place, &mut joined, &mut parts)?;
    }
    Ok(parts)
}

/// A mark for each of so many places, of which the last is marked.
pub(crate) fn only_last(alloc: Global, count: usize) -> Result<Vec<bool>, NoMemory>
    ensures { IfOk result (λ marks. IsLastMark count marks.items) }
{
    let mut marks = Vec::with_capacity(alloc, count)?;
    for place in 0..count {
        marks.push(place == count - 1)?;
    }
    Ok(marks)
}

// Takes the line of a place apart, where it is marked: marks the lines that it joins, or appends a part.
fn split_line<D: Symbolic>(
    d: &D,
    lines: &[Line<D::Node>],
    place: usize,
    joined: &mut [bool],
    parts: &mut Parts<D::Node>,
) -> Result<(), NoMemory>
    requires lines { AreLines (D.look d.now) lines.now }
    requires place { place < length lines.now }
    requires marks { length joined.old ≡ length lines.now }
    ensures count { length joined.new ≡ length joined.old }
    ensures split { OnOk result
        ((s : Seen D.Node) → IsSplitting (D.look d.now) s lines.now (place + 1) joined.old parts.old → IsSplitting (D.look d.now) s lines.now place joined.new parts.new) }
{
    if !joined[place] {
        return Ok(());
    }
    let line = &lines[place];
    match &line.made {
        Made::Apply(op, args) => match op {
            Op::And => mark_all(args.as_slice(), joined),
            Op::Eq => parts.pairs.push(pair(d, lines, args.as_slice())?)?,
            _ => parts.others.push(d.copy(&line.node)?)?,
        },
        Made::Leaf => parts.others.push(d.copy(&line.node)?)?,
    }
    Ok(())
}

/// Marks places.
pub(crate) fn mark_all(places: &[usize], marks: &mut [bool])
    requires { All (λ p. p < length marks.old) places.now }
    ensures count { length marks.new ≡ length marks.old }
    ensures marked { AreMarkedMore places.now marks.old marks.new }
{
    for place in places {
        marks[*place] = true;
    }
}

// The nodes of two lines. The one that is known stands second, and where none is known the one of the earlier line.
fn pair<D: Symbolic>(
    d: &D,
    lines: &[Line<D::Node>],
    places: &[usize],
) -> Result<Pair<D::Node>, NoMemory>
    requires lines { AreLines (D.look d.now) lines.now }
    requires places { AreTwoIn (length lines.now) places.now }
    ensures { IfOk result (ArePaired (D.look d.now) lines.now places.now) }
{
    let (a, b) = (places[0], places[1]);
    if stands_second(d, lines, a, b) {
        Ok(pair_at(d, lines, b, a)?)
    } else {
        Ok(pair_at(d, lines, a, b)?)
    }
}

// The nodes of the lines at two places.
fn pair_at<D: Symbolic>(
    d: &D,
    lines: &[Line<D::Node>],
    first: usize,
    second: usize,
) -> Result<Pair<D::Node>, NoMemory>
    requires lines { AreLines (D.look d.now) lines.now }
    requires first { first < length lines.now }
    requires second { second < length lines.now }
    ensures { IfOk result (IsPairAt (D.look d.now) lines.now first second) }
{
    Ok(Pair {
        first: d.copy(&lines[first].node)?,
        second: d.copy(&lines[second].node)?,
    })
}

// Whether of two lines the first one's node is to stay in the place of the other's.
fn stands_second<D: Symbolic>(d: &D, lines: &[Line<D::Node>], a: usize, b: usize) -> bool
    requires lines { AreLines (D.look d.now) lines.now }
    requires first { a < length lines.now }
    requires second { b < length lines.now }
{
    match (d.known(&lines[a].node), d.known(&lines[b].node)) {
        (Some(_), _) => true,
        (None, Some(_)) => false,
        (None, None) => a < b,
    }
}
