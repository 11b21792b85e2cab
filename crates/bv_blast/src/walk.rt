//! The walk over the nodes of a formula.
ghost use Rattle.std.specs.Prelude.{◌≡◌, nat_lt, length, map, All, IsSome, IsTrue, IfOk, OnOk, Some, slice_get};
ghost use Rattle.std.specs.List.{list_all};
ghost use Rattle.data_value.specs.declared.DataSort.TheVariants.{Bool as BoolSort};
ghost use Rattle.data_value.specs.Sorts.{IsSort, op_sort};
ghost use Rattle.data_value.specs.Values.{IsScalar};
ghost use Rattle.data_value.specs.Flat.{at_places, node_sort, HaveSorts};
ghost use Rattle.bit_gates.specs.Grows.{Grows};
ghost use Rattle.bv_blast.specs.declared.place.Place.TheVariants.{Flag};
ghost use Rattle.bv_blast.specs.Inputs.{IsBits, positive, widths_of};
ghost use Rattle.bv_blast.specs.Places.{place_sort, HasPlace, HasOpValue, HasValue, HasNodeValue, HaveNodeValues};
ghost use Rattle.bv_blast.specs.Circuits.{IsCircuitOf};

use crate::inputs::fresh_inputs;
use crate::operator::{on_one, on_three, on_two};
use crate::place::Place;
use crate::{Bits, Circuit};
use bit_gates::{Builder, Lit, NoMemory, Word, constant, constant_word};
use data_value::{Flat, FlatNode, Op, Scalar};
use sqlite_items::Items;
use std::alloc::Global;

/// The circuit of a formula. Under every assignment that makes its clauses true, its inputs spell words that make the formula true;
/// and all words that make the formula true are spelled under such an assignment. It fails only for want of memory.
pub fn blast(alloc: Global, flat: &Flat) -> Result<Circuit, NoMemory>
    ensures { IfOk result (IsCircuitOf flat.now) }
{
    let mut b = Builder::new(alloc)?;
    let inputs = fresh_inputs(alloc, &mut b, flat.widths.as_slice())?;
    let places = blast_nodes(alloc, &mut b, inputs.as_slice(), flat.nodes.as_slice())?;
    let root = flag_at(places.as_slice(), flat.root);
    b.demand(root)?;
    Ok(Circuit {
        clauses: b.clauses,
        inputs,
    })
}

/// The literals of the values of all nodes.
fn blast_nodes(
    alloc: Global,
    b: &mut Builder,
    inputs: &[Bits],
    nodes: &[FlatNode],
) -> Result<Items<Place>, NoMemory>
    requires inputs { All (IsBits b.old.clauses.vars) inputs.now }
    requires lawful { HaveSorts (widths_of inputs.now) nodes.now }
    ensures extends { OnOk result (Grows b.old b.new) }
    ensures made { IfOk result (HaveNodeValues b.new inputs.now nodes.now) }
{
    let mut places = Items::new(alloc);
    for node in nodes {
        let place = blast_node(alloc, b, inputs, places.as_slice(), node)?;
        places.push(place)?;
    }
    Ok(places)
}

/// The literals of a node's value, from those of the places before it.
fn blast_node(
    alloc: Global,
    b: &mut Builder,
    inputs: &[Bits],
    places: &[Place],
    node: &FlatNode,
) -> Result<Place, NoMemory>
    requires inputs { All (IsBits b.old.clauses.vars) inputs.now }
    requires places { All (HasPlace b.old) places.now }
    requires sorts { All IsSort (map place_sort places.now) }
    requires lawful { IsSome (node_sort (widths_of inputs.now) (map place_sort places.now) node.now) }
    ensures extends { OnOk result (Grows b.old b.new) }
    ensures made { IfOk result (HasNodeValue b.new inputs.now places.now node.now) }
{
    match node {
        FlatNode::Input(i) => Ok(Place::Word(positive_word(alloc, inputs[*i].as_slice())?)),
        FlatNode::Fixed(scalar) => fixed(b, *scalar),
        FlatNode::Apply(op, args) => apply(b, *op, places, args.as_slice()),
    }
}

/// The literals that are true where these variables are.
fn positive_word(alloc: Global, bits: &[usize]) -> Result<Word, NoMemory>
    ensures { IfOk result (λ word. word ≡ map positive bits.now) }
{
    let mut word = Items::new(alloc);
    for i in 0..bits.len() {
        word.push(Lit {
            var: bits[i],
            positive: true,
        })?;
    }
    Ok(word)
}

/// The literals of a fixed value.
fn fixed(b: &Builder, scalar: Scalar) -> Result<Place, NoMemory>
    requires { IsScalar scalar }
    ensures { IfOk result (HasValue b.now scalar) }
{
    match scalar {
        Scalar::Flag(value) => Ok(Place::Flag(constant(value))),
        Scalar::Bits { width, bits } => { Ok(Place::Word(constant_word(b, width as usize, bits)?)) }
    }
}

/// The literals of an operator's value at places.
#[tactic(auto, using(crate::proofs::ArityLemmas::some_args, crate::proofs::ArityLemmas::few_args))]
fn apply(b: &mut Builder, op: Op, places: &[Place], args: &[usize]) -> Result<Place, NoMemory>
    requires before { IsTrue (list_all (λ p. nat_lt p (length places.now)) args.now) }
    requires sorted { IsSome (op_sort op (at_places BoolSort (map place_sort places.now) args.now)) }
    requires places { All (HasPlace b.old) places.now }
    requires sorts { All IsSort (map place_sort places.now) }
    ensures extends { OnOk result (Grows b.old b.new) }
    ensures made { IfOk result (λ p. (d : Place) → HasOpValue b.new op (at_places d places.now args.now) p) }
{
    match args {
        [i] => on_one(b, op, &places[*i]),
        [i, j] => on_two(b, op, &places[*i], &places[*j]),
        [i, j, k] => on_three(b, op, &places[*i], &places[*j], &places[*k]),
        _ => unreachable!(),
    }
}

/// The literal of the truth value at a place.
fn flag_at(places: &[Place], at: usize) -> Lit
    requires { slice_get (map place_sort places.now) at ≡ Some BoolSort }
    ensures { slice_get places.now at ≡ Some (Flag result) }
{
    match &places[at] {
        Place::Flag(lit) => *lit,
        Place::Word(_) => unreachable!(),
    }
}
