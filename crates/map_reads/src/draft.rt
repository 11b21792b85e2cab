//! A formula under way.
ghost use Rattle.std.specs.Prelude.{◌≡◌, ◌≢◌, ℕ, List, [], IfOk, IfSome, IsTrue, true, Some, if◌then◌else◌, ◌==◌, slice_get, slice_index};
ghost use Rattle.std.specs.List.{list_all};
ghost use Rattle.data_value.specs.declared.DataSort.{DataSort as SortOf};
ghost use Rattle.data_value.specs.declared.DataSort.TheVariants.{Bool as BoolSort};
ghost use Rattle.data_value.specs.declared.Scalar.TheVariants.{Flag};
ghost use Rattle.data_value.specs.declared.flat_formula.FlatNode.TheVariants.{Apply};
ghost use Rattle.data_value.specs.Sorts.{is_sort, is_scalar_sort};
ghost use Rattle.data_value.specs.Values.{flag_of, same_scalar};
ghost use Rattle.map_reads.specs.Tied.{input_width};
ghost use Rattle.map_reads.specs.Drafts.{IsDraft, IsPushed, HasValue, IsBegun, sort_at, value_of};

use crate::read::ReadList;
use data_value::{DataSort, DataSorts, FlatNode, FlatNodes, NoMemory, Op, Places, Scalar, Widths};
use sqlite_items::Items;
use std::alloc::Global;

/// A formula without maps that may get more nodes, inputs and reads.
#[derive(Debug, Drop)]
pub(crate) struct Draft {
    /// The sorts of the variables.
    pub sorts: DataSorts,
    /// The input of each variable.
    pub scalars: Places,
    /// The widths of the inputs.
    pub widths: Widths,
    /// The nodes.
    pub nodes: FlatNodes,
    /// The reads.
    pub reads: ReadList,
}

/// The width of a variable's input.
fn input_width(sort: DataSort) -> u8
    ensures { result ≡ input_width sort }
{
    match sort {
        DataSort::Bool | DataSort::Map(_, _) => 1,
        DataSort::Bits(width) => width,
    }
}

impl Draft {
    /// No nodes and no reads, and an input for each variable.
    pub fn new(alloc: Global, sorts: &[DataSort]) -> Result<Draft, NoMemory>
        requires { list_all is_sort sorts.now ≡ true }
        ensures { IfOk result (IsBegun sorts.now) }
    {
        let mut scalars = Items::new(alloc);
        let mut widths = Items::new(alloc);
        for sort in sorts {
            scalars.push(widths.len())?;
            widths.push(input_width(*sort))?;
        }
        Ok(Draft {
            sorts: Items::from_slice(alloc, sorts)?,
            scalars,
            widths,
            nodes: Items::new(alloc),
            reads: Items::new(alloc),
        })
    }

    /// The place of one more node.
    pub fn push(&mut self, node: FlatNode) -> Result<usize, NoMemory>
        ensures { IfOk result (λ p. IsPushed self.old self.new p node) }
    {
        let place = self.nodes.len();
        self.nodes.push(node)?;
        Ok(place)
    }

    /// The place of an operator at places.
    pub fn apply(&mut self, alloc: Global, op: Op, args: &[usize]) -> Result<usize, NoMemory>
        ensures { IfOk result (λ p. IsPushed self.old self.new p (Apply op args.now)) }
    {
        let places = Items::from_slice(alloc, args)?;
        self.push(FlatNode::Apply(op, places))
    }

    /// The scalar that is fixed at a place, None where it isn't fixed.
    pub fn fixed(&self, place: usize) -> Option<Scalar>
        ensures { IfSome result (λ s. (words : List ℕ) → value_of self.now words place ≡ s) }
    {
        match self.nodes.get(place) {
            Some(FlatNode::Fixed(scalar)) => Some(*scalar),
            _ => None,
        }
    }

    /// Whether scalars are fixed at two places, and differ.
    pub fn are_apart(&self, a: usize, b: usize) -> bool
        ensures { IsTrue result → (words : List ℕ) → value_of self.now words a ≢ value_of self.now words b }
    {
        match (self.fixed(a), self.fixed(b)) {
            (Some(x), Some(y)) => x != y,
            _ => false,
        }
    }

    /// The place of whether two places of one sort have equal values.
    pub fn equal(&mut self, alloc: Global, a: usize, b: usize) -> Result<usize, NoMemory>
        ensures { IfOk result
            (λ p. (t : SortOf) → IsDraft self.old → is_scalar_sort t ≡ true → sort_at self.old a ≡ Some t → sort_at self.old b ≡ Some t →
            HasValue self.old self.new p BoolSort (λ words. Flag (same_scalar (value_of self.old words a) (value_of self.old words b)))) }
    {
        match (self.fixed(a), self.fixed(b)) {
            (Some(x), Some(y)) => self.push(FlatNode::Fixed(Scalar::Flag(x == y))),
            _ => self.apply(alloc, Op::Eq, &[a, b]),
        }
    }

    /// The place of a choice: of the second value where the first is true, and else of the third.
    pub fn choose(
        &mut self,
        alloc: Global,
        test: usize,
        a: usize,
        b: usize,
    ) -> Result<usize, NoMemory>
        ensures { IfOk result
            (λ p. (t : SortOf) → IsDraft self.old → is_scalar_sort t ≡ true → sort_at self.old test ≡ Some BoolSort → sort_at self.old a ≡ Some t → sort_at self.old b ≡ Some t →
            HasValue self.old self.new p t (λ words. if flag_of (value_of self.old words test) then value_of self.old words a else value_of self.old words b)) }
    {
        match self.fixed(test) {
            Some(Scalar::Flag(true)) => Ok(a),
            Some(_) => Ok(b),
            None => self.apply(alloc, Op::Ite, &[test, a, b]),
        }
    }

    /// The place of the truth value of an input of one bit.
    pub fn input_flag(&mut self, alloc: Global, input: usize) -> Result<usize, NoMemory>
        ensures { IfOk result
            (λ p. IsDraft self.old → slice_get self.old.widths input ≡ Some 1 → HasValue self.old self.new p BoolSort (λ words. Flag (slice_index words input == 1))) }
    {
        let word = self.push(FlatNode::Input(input))?;
        let one = self.push(FlatNode::Fixed(Scalar::Bits { width: 1, bits: 1 }))?;
        self.equal(alloc, word, one)
    }
}
