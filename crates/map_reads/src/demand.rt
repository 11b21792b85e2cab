//! That reads of one variable at equal keys are equal.
ghost use Rattle.std.specs.Prelude.{◌≡◌, ◌<◌, ℕ, List, length, IfOk, IsTrue, Some, false, ◌||◌, not, slice_get, slice_index};
ghost use Rattle.data_value.specs.declared.DataSort.TheVariants.{Bool as BoolSort, Bits as BitsSort};
ghost use Rattle.data_value.specs.declared.Scalar.TheVariants.{Flag, Bits};
ghost use Rattle.data_value.specs.Values.{same_scalar};
ghost use Rattle.map_reads.specs.Drafts.{IsDraft, HasValue, sort_at, value_of};
ghost use Rattle.map_reads.specs.Demands.{Agree, AgreeIn, AllAgree, IsDemanded};

use crate::draft::Draft;
use crate::read::Read;
use data_value::{FlatNode, NoMemory, Op};
use std::alloc::Global;

/// The place of whether what stands at a place is true and each two reads agree.
pub(crate) fn demand(alloc: Global, draft: &mut Draft, root: usize) -> Result<usize, NoMemory>
    requires draft { IsDraft draft.old }
    requires root { sort_at draft.old root ≡ Some BoolSort }
    ensures { IfOk result (λ p. IsDemanded draft.old draft.new root p (AllAgree draft.old.widths draft.old.nodes draft.old.reads)) }
{
    let mut demanded = root;
    for last in 0..draft.reads.len() {
        demanded = with_earlier(alloc, draft, demanded, last)?;
    }
    Ok(demanded)
}

/// The place of whether what stands at a place is true and a read agrees with each earlier one.
fn with_earlier(
    alloc: Global,
    draft: &mut Draft,
    root: usize,
    last: usize,
) -> Result<usize, NoMemory>
    requires draft { IsDraft draft.old }
    requires root { sort_at draft.old root ≡ Some BoolSort }
    requires last { last < length draft.old.reads }
    ensures { IfOk result (λ p. IsDemanded draft.old draft.new root p (λ words. (i : ℕ) → i < last → AgreeIn draft.old words i last)) }
{
    let mut demanded = root;
    for first in 0..last {
        demanded = with_pair(alloc, draft, demanded, first, last)?;
    }
    Ok(demanded)
}

/// The place of whether what stands at a place is true and two reads agree.
fn with_pair(
    alloc: Global,
    draft: &mut Draft,
    root: usize,
    first: usize,
    last: usize,
) -> Result<usize, NoMemory>
    requires draft { IsDraft draft.old }
    requires root { sort_at draft.old root ≡ Some BoolSort }
    requires first { first < length draft.old.reads }
    requires last { last < length draft.old.reads }
    ensures { IfOk result (λ p. IsDemanded draft.old draft.new root p (λ words. AgreeIn draft.old words first last)) }
{
    let a = draft.reads.as_slice()[first];
    let b = draft.reads.as_slice()[last];
    if !may_differ(draft, &a, &b) {
        return Ok(root);
    }
    let agree = agreement(alloc, draft, &a, &b)?;
    draft.apply(alloc, Op::And, &[root, agree])
}

/// Whether two reads are of one variable, and not at keys that are fixed and differ.
fn may_differ(draft: &Draft, a: &Read, b: &Read) -> bool
    ensures variable { IsTrue result → a.now.variable ≡ b.now.variable }
    ensures agree { result ≡ false → (words : List ℕ) → Agree draft.now.widths draft.now.nodes words a.now b.now }
{
    a.variable == b.variable && !draft.are_apart(a.key, b.key)
}

/// The place of whether two reads have different keys or equal words.
fn agreement(alloc: Global, draft: &mut Draft, a: &Read, b: &Read) -> Result<usize, NoMemory>
    ensures { IfOk result
        (λ p. (k w : ℕ) → IsDraft draft.old → sort_at draft.old a.now.key ≡ Some (BitsSort k) → sort_at draft.old b.now.key ≡ Some (BitsSort k) →
        slice_get draft.old.widths a.now.word ≡ Some w → slice_get draft.old.widths b.now.word ≡ Some w →
        HasValue draft.old draft.new p BoolSort
        (λ words. Flag (not (same_scalar (value_of draft.old words a.now.key) (value_of draft.old words b.now.key)) || same_scalar (Bits w (slice_index words a.now.word)) (Bits w (slice_index words b.now.word))))) }
{
    let keys = draft.equal(alloc, a.key, b.key)?;
    let first = draft.push(FlatNode::Input(a.word))?;
    let second = draft.push(FlatNode::Input(b.word))?;
    let words = draft.equal(alloc, first, second)?;
    let apart = draft.apply(alloc, Op::Not, &[keys])?;
    draft.apply(alloc, Op::Or, &[apart, words])
}
