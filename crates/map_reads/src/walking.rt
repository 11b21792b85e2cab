//! The places of a domain's nodes.
ghost use Rattle.std.specs.Prelude.{◌≡◌, ◌<◌, ℕ, [], ◌∷◌, length, slice_get, IfOk, IsTrue, Some, All, false};
ghost use Rattle.data_value.specs.declared.DataSort.{DataSort as SortOf};
ghost use Rattle.data_value.specs.declared.DataSort.TheVariants.{Bits as BitsSort, Map as MapSort};
ghost use Rattle.data_value.specs.declared.Op.TheVariants.{Get};
ghost use Rattle.data_value.specs.Sorts.{is_scalar_sort, op_sort};
ghost use Rattle.data_value.specs.Values.{scalar_of};
ghost use Rattle.data_value.specs.Nodes.{Seen};
ghost use Rattle.data_value.specs.Views.{shown_args, value_at};
ghost use Rattle.node_list.specs.Listed.{AreLines, StandsAt};
ghost use Rattle.map_reads.specs.Drafts.{IsDraft, IsPlaced};
ghost use Rattle.map_reads.specs.Placing.{HavePlaces, IsNext, IsGet, IsApply, IsWordAt, IsLeaf, IsVariableAt, ArePlaced, IsScalarNode, read_meant, scalar_meant};

use crate::draft::Draft;
use crate::placing::{Place, Put, operator, puts_into, scalar_at};
use crate::reading::{over, read_constant, read_variable};
use data_value::{DataSort, FlatNode, NoMemory, Op, Places, Symbolic, Value, View};
use node_list::{Line, Made, listed};
use sqlite_items::Items;
use std::alloc::Global;

/// Where a variable stands.
fn variable(alloc: Global, draft: &mut Draft, index: usize) -> Result<Place, NoMemory>
    requires draft { IsDraft draft.old }
    requires index { index < length draft.old.sorts }
    ensures { IfOk result (IsVariableAt draft.old draft.new index) }
{
    let input = draft.scalars.as_slice()[index];
    match draft.sorts.as_slice()[index] {
        DataSort::Bool => Ok(Place::Scalar(draft.input_flag(alloc, input)?)),
        DataSort::Bits(_) => Ok(Place::Scalar(draft.push(FlatNode::Input(input))?)),
        DataSort::Map(_, _) => Ok(Place::Map),
    }
}

/// Where a node stands that is a variable or a constant.
fn leaf<D: Symbolic>(
    alloc: Global,
    d: &D,
    draft: &mut Draft,
    node: &D::Node,
) -> Result<Place, NoMemory>
    requires valid { IsTrue (D.look d.now node.now).valid }
    requires leaf { shown_args (D.look d.now node.now).shown ≡ [] }
    requires draft { IsDraft draft.old }
    requires sorts { draft.old.sorts ≡ D.variables d.now }
    ensures { IfOk result (IsLeaf draft.old draft.new (D.look d.now node.now)) }
{
    match d.view(node) {
        View::Variable(index) => variable(alloc, draft, index),
        View::Constant(value) => {
            match value {
                Value::One(scalar) => Ok(Place::Scalar(draft.push(FlatNode::Fixed(*scalar))?)),
                Value::Map(_) => Ok(Place::Map),
            }
        }
        View::Apply(_, _) => unreachable!(),
    }
}

/// The place of what a map that is a variable or a constant has at a key.
fn read_leaf<D: Symbolic>(
    alloc: Global,
    d: &D,
    draft: &mut Draft,
    map: &D::Node,
    key: usize,
) -> Result<usize, NoMemory>
    requires valid { IsTrue (D.look d.now map.now).valid }
    requires leaf { shown_args (D.look d.now map.now).shown ≡ [] }
    requires map { is_scalar_sort (D.look d.now map.now).sort ≡ false }
    requires draft { IsDraft draft.old }
    requires sorts { draft.old.sorts ≡ D.variables d.now }
    ensures { IfOk result
        (λ p. (keys words : ℕ) (k : Seen D.Node) → (D.look d.now map.now).sort ≡ MapSort keys words → IsWordAt draft.old key keys k →
        IsPlaced draft.old draft.new p (BitsSort words) (read_meant (D.look d.now map.now) k)) }
{
    match d.view(map) {
        View::Variable(index) => {
            match draft.sorts.as_slice()[index] {
                DataSort::Map(_, width) => read_variable(draft, index, key, width),
                _ => unreachable!(),
            }
        }
        View::Constant(Value::Map(map)) => read_constant(alloc, draft, map, key),
        _ => unreachable!(),
    }
}

/// The place of what the map of a line has at the key of a line.
fn read<D: Symbolic>(
    alloc: Global,
    d: &D,
    draft: &mut Draft,
    lines: &[Line<D::Node>],
    places: &[Place],
    map: usize,
    key: usize,
) -> Result<usize, NoMemory>
    requires draft { IsDraft draft.old }
    requires sorts { draft.old.sorts ≡ D.variables d.now }
    requires lines { AreLines (D.look d.now) lines.now }
    requires places { HavePlaces (D.look d.now) draft.old lines.now places.now }
    requires get { IsGet (D.look d.now) lines.now places.now map key }
    ensures { IfOk result
        (λ p. (m k : Seen D.Node) (t : SortOf) → StandsAt (D.look d.now) lines.now map m → StandsAt (D.look d.now) lines.now key k → op_sort Get (m.sort ∷ k.sort ∷ []) ≡ Some t →
        IsPlaced draft.old draft.new p t (read_meant m k)) }
{
    let place = scalar_at(places, key);
    let mut chain = puts_into(alloc, places, map)?;
    let mut found = read_leaf(alloc, d, draft, &lines[chain.base].node, place)?;
    while let Some(put) = chain.puts.pop() {
        found = over(alloc, draft, put, place, found)?;
    }
    Ok(found)
}

/// Where an operator at the nodes of lines stands.
fn apply<D: Symbolic>(
    alloc: Global,
    d: &D,
    draft: &mut Draft,
    lines: &[Line<D::Node>],
    places: &[Place],
    op: Op,
    args: &[usize],
) -> Result<Place, NoMemory>
    requires draft { IsDraft draft.old }
    requires sorts { draft.old.sorts ≡ D.variables d.now }
    requires lines { AreLines (D.look d.now) lines.now }
    requires places { HavePlaces (D.look d.now) draft.old lines.now places.now }
    requires apply { IsApply (D.look d.now) lines.now (length places.now) op args.now }
    ensures { IfOk result (IsNext (D.look d.now) draft.old draft.new lines.now (length places.now)) }
{
    match op {
        Op::Get => {
            let found = read(alloc, d, draft, lines, places, args[0], args[1])?;
            Ok(Place::Scalar(found))
        }
        Op::Put => {
            let key = scalar_at(places, args[1]);
            let word = scalar_at(places, args[2]);
            Ok(Place::Over(args[0], Put { key, word }))
        }
        _ => Ok(Place::Scalar(operator(alloc, draft, places, op, args)?)),
    }
}

/// Where the next line's node stands.
fn place_of_line<D: Symbolic>(
    alloc: Global,
    d: &D,
    draft: &mut Draft,
    lines: &[Line<D::Node>],
    places: &[Place],
) -> Result<Place, NoMemory>
    requires draft { IsDraft draft.old }
    requires sorts { draft.old.sorts ≡ D.variables d.now }
    requires lines { AreLines (D.look d.now) lines.now }
    requires places { HavePlaces (D.look d.now) draft.old lines.now places.now }
    requires next { length places.now < length lines.now }
    ensures { IfOk result (IsNext (D.look d.now) draft.old draft.new lines.now (length places.now)) }
{
    let line = &lines[places.len()];
    match &line.made {
        Made::Leaf => leaf(alloc, d, draft, &line.node),
        Made::Apply(op, args) => apply(alloc, d, draft, lines, places, *op, args.as_slice()),
    }
}

/// The place of a node that means a truth value or a word.
fn place_of<D: Symbolic>(
    alloc: Global,
    d: &D,
    draft: &mut Draft,
    node: &D::Node,
) -> Result<usize, NoMemory>
    requires draft { IsDraft draft.old }
    requires sorts { draft.old.sorts ≡ D.variables d.now }
    requires node { IsScalarNode (D.look d.now node.now) }
    ensures { IfOk result
        (λ p. IsPlaced draft.old draft.new p (D.look d.now node.now).sort (scalar_meant (D.look d.now node.now))) }
{
    let lines = listed(alloc, d, node)?;
    let mut places = Vec::new(alloc);
    for _line in 0..lines.len() {
        let place = place_of_line(alloc, d, draft, lines.as_slice(), places.as_slice())?;
        places.push(place)?;
    }
    Ok(scalar_at(places.as_slice(), lines.len() - 1))
}

/// The places of nodes that mean truth values or words.
pub(crate) fn places_of<D: Symbolic>(
    alloc: Global,
    d: &D,
    draft: &mut Draft,
    nodes: &[D::Node],
) -> Result<Places, NoMemory>
    requires draft { IsDraft draft.old }
    requires sorts { draft.old.sorts ≡ D.variables d.now }
    requires nodes { All (λ n. IsScalarNode (D.look d.now n)) nodes.now }
    ensures { IfOk result (ArePlaced (D.look d.now) draft.old draft.new nodes.now) }
{
    let mut found = Items::new(alloc);
    for node in nodes {
        found.push(place_of(alloc, d, draft, node)?)?;
    }
    Ok(found)
}
