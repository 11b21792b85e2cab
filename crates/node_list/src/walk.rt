// A walk from a node to the nodes that it is made of, whose tasks stand in a list and not on the machine's stack.
ghost use Rattle.std.specs.Prelude.{◌≡◌, ◌≤◌, [], ℕ, Some, None, take, drop, length, reverse, nat_eq, IsTrue, IfOk, OnOk, MatchOption};
ghost use Rattle.indexmap.specs.IndexMap.{get};
ghost use Rattle.data_value.specs.Nodes.{AllValid};
ghost use Rattle.data_value.specs.Views.{shown_args};
ghost use Rattle.node_list.specs.Listed.{StandsAt, StandAt, IsListing, IsMadeOf};
ghost use Rattle.node_list.specs.Walks.{arity, HasFinds, IsNew, IsOpened, IsSought, IsAppended};

use crate::line::{Line, Lines, Made};
use data_value::{NoMemory, Places, Symbolic, View};
use indexmap::IndexMap;
use sqlite_items::Items;
use std::alloc::Global;

/// What is left to do for a node.
#[derive(Drop)]
pub enum Task<N> {
    /// To find a place of the node.
    Find(N),
    /// To append the line of the node, of whose arguments the places were found last.
    Append(N),
}

/// The lines so far, the place of each node that is kept under a number, and the places that were found and are not used yet, the last
/// one found last.
#[derive(Drop)]
pub struct Walk<N> {
    pub lines: Lines<N>,
    pub places: IndexMap<usize, usize>,
    pub found: Vec<usize>,
}

impl<N> Walk<N> {
    /// No lines.
    pub fn new(alloc: Global) -> Walk<N>
        ensures lines { result.lines.items ≡ [] }
        ensures places { (i : ℕ) → get nat_eq result.places i ≡ None }
        ensures found { result.found.items ≡ [] }
    {
        Walk {
            lines: Vec::new(alloc),
            places: IndexMap::new(alloc),
            found: Vec::new(alloc),
        }
    }
}

/// Finds a place of a node that is there, or puts before the other tasks those that append its line.
pub fn seek<D: Symbolic>(
    d: &D,
    walk: &mut Walk<D::Node>,
    tasks: &mut Vec<Task<D::Node>>,
    node: &D::Node,
) -> Result<(), NoMemory>
    requires node { IsTrue (D.look d.now node.now).valid }
    requires listing { IsListing (D.look d.now) walk.old.lines.items (get nat_eq walk.old.places) }
    ensures same { OnOk result ((walk.new.lines ≡ walk.old.lines) × (walk.new.places ≡ walk.old.places)) }
    ensures sought { OnOk result
        (IsSought (D.look d.now) (D.look d.now node.now) walk.old.lines.items (get nat_eq walk.old.places)
        (reverse tasks.old.items) (reverse tasks.new.items) (reverse walk.old.found.items) (reverse walk.new.found.items)) }
{
    match remembered(d, walk, node) {
        Some(place) => {
            walk.found.push(place)?;
            Ok(())
        }
        None => open(d, tasks, node),
    }
}

// The place of a line of the node, if one is kept under its number.
fn remembered<D: Symbolic>(d: &D, walk: &Walk<D::Node>, node: &D::Node) -> Option<usize>
    requires node { IsTrue (D.look d.now node.now).valid }
    requires listing { IsListing (D.look d.now) walk.now.lines.items (get nat_eq walk.now.places) }
    ensures { MatchOption result (IsNew (D.look d.now node.now) (get nat_eq walk.now.places))
        (λ p. StandsAt (D.look d.now) walk.now.lines.items p (D.look d.now node.now)) }
{
    match d.id(node) {
        Some(id) => walk.places.get(&id).copied(),
        None => None,
    }
}

/// Puts before the other tasks those that append the line of a node: to find its arguments, and then to append it.
pub fn open<D: Symbolic>(
    d: &D,
    tasks: &mut Vec<Task<D::Node>>,
    node: &D::Node,
) -> Result<(), NoMemory>
    requires { IsTrue (D.look d.now node.now).valid }
    ensures { OnOk result (IsOpened (D.look d.now) (D.look d.now node.now) (reverse tasks.old.items) (reverse tasks.new.items)) }
{
    tasks.push(Task::Append(d.copy(node)?))?;
    match d.view(node) {
        View::Apply(_, args) => find_all(d, tasks, args),
        _ => Ok(()),
    }
}

// Puts before the other tasks those that find places of nodes.
fn find_all<D: Symbolic>(
    d: &D,
    tasks: &mut Vec<Task<D::Node>>,
    nodes: &[D::Node],
) -> Result<(), NoMemory>
    requires { AllValid (D.look d.now) nodes.now }
    ensures { OnOk result (HasFinds (D.look d.now) nodes.now (reverse tasks.old.items) (reverse tasks.new.items)) }
{
    for node in nodes {
        tasks.push(Task::Find(d.copy(node)?))?;
    }
    Ok(())
}

/// Appends the line of a node, of whose arguments the places were found last.
pub fn append<D: Symbolic>(
    alloc: Global,
    d: &D,
    walk: &mut Walk<D::Node>,
    node: D::Node,
) -> Result<(), NoMemory>
    requires node { IsTrue (D.look d.now node).valid }
    requires new { IsNew (D.look d.now node) (get nat_eq walk.old.places) }
    requires listing { IsListing (D.look d.now) walk.old.lines.items (get nat_eq walk.old.places) }
    requires found { StandAt (D.look d.now) walk.old.lines.items
        (take (arity (D.look d.now node)) (reverse walk.old.found.items)) (shown_args (D.look d.now node).shown) }
    ensures listing { OnOk result (IsListing (D.look d.now) walk.new.lines.items (get nat_eq walk.new.places)) }
    ensures appended { OnOk result
        (IsAppended (D.look d.now) (D.look d.now node) walk.old.lines.items walk.new.lines.items
        (get nat_eq walk.old.places) (get nat_eq walk.new.places) (reverse walk.old.found.items) (reverse walk.new.found.items)) }
{
    let place = walk.lines.len();
    let made = made_of(alloc, d, &mut walk.found, &node)?;
    remember(d, &mut walk.places, &node, place)?;
    walk.lines.push(Line { node, made })?;
    walk.found.push(place)?;
    Ok(())
}

// How a node is made of those at the places that were found last, one for each of its arguments.
fn made_of<D: Symbolic>(
    alloc: Global,
    d: &D,
    found: &mut Vec<usize>,
    node: &D::Node,
) -> Result<Made, NoMemory>
    requires node { IsTrue (D.look d.now node.now).valid }
    requires found { arity (D.look d.now node.now) ≤ length found.old.items }
    ensures made { IfOk result (IsMadeOf (D.look d.now node.now).shown (take (arity (D.look d.now node.now)) (reverse found.old.items))) }
    ensures rest { OnOk result (reverse found.new.items ≡ drop (arity (D.look d.now node.now)) (reverse found.old.items)) }
{
    match d.view(node) {
        View::Apply(op, args) => Ok(Made::Apply(op, taken(alloc, found, args.len())?)),
        _ => Ok(Made::Leaf),
    }
}

// So many of the places that were found last, the last one first, which are not kept.
fn taken(alloc: Global, found: &mut Vec<usize>, count: usize) -> Result<Places, NoMemory>
    requires { count ≤ length found.old.items }
    ensures taken { IfOk result (λ places. places ≡ take count (reverse found.old.items)) }
    ensures rest { OnOk result (reverse found.new.items ≡ drop count (reverse found.old.items)) }
{
    let mut places = Items::new(alloc);
    for _turn in 0..count {
        match found.pop() {
            Some(place) => places.push(place)?,
            None => unreachable!(),
        }
    }
    Ok(places)
}

// Keeps the place of a node under its number, if it has one.
fn remember<D: Symbolic>(
    d: &D,
    places: &mut IndexMap<usize, usize>,
    node: &D::Node,
    place: usize,
) -> Result<(), NoMemory>
    requires { IsTrue (D.look d.now node.now).valid }
    ensures kept { OnOk result ((i : ℕ) → (D.look d.now node.now).id ≡ Some i → get nat_eq places.new i ≡ Some place) }
    ensures others { OnOk result ((i : ℕ) → ((D.look d.now node.now).id ≡ Some i → ⊥) → get nat_eq places.new i ≡ get nat_eq places.old i) }
{
    match d.id(node) {
        Some(id) => {
            places.insert(id, place)?;
            Ok(())
        }
        None => Ok(()),
    }
}
