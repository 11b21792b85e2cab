//! What maps have at keys, in a draft.
ghost use Rattle.std.specs.Prelude.{◌≡◌, ◌<◌, ◌^◌, ℕ, List, IfOk, IfSome, IsTrue, true, Some, if◌then◌else◌, slice_get};
ghost use Rattle.data_value.specs.declared.DataSort.{DataSort as SortOf};
ghost use Rattle.data_value.specs.declared.DataSort.TheVariants.{Bits as BitsSort, Map as MapSort};
ghost use Rattle.data_value.specs.declared.Scalar.{Scalar as ScalarOf};
ghost use Rattle.data_value.specs.declared.Scalar.TheVariants.{Bits};
ghost use Rattle.data_value.specs.declared.Value.{Value};
ghost use Rattle.data_value.specs.Sorts.{IsWidth, is_scalar_sort};
ghost use Rattle.data_value.specs.Values.{map_of, word_of, same_scalar};
ghost use Rattle.data_value.specs.Maps.{IsMapping, FitsEntry, read};
ghost use Rattle.data_value.specs.Views.{value_at};
ghost use Rattle.map_reads.specs.Drafts.{IsDraft, HasValue, Stands, IsPlaced, IsFound, IsNewRead, HasRead, entry_at, sort_at, value_of};

use crate::draft::Draft;
use crate::placing::Put;
use crate::read::Read;
use data_value::{DataSort, FlatNode, MapValue, NoMemory, Scalar};
use std::alloc::Global;

/// The place of what a map has at a key after a word was put at one, where `below` is what it had before.
pub(crate) fn over(
    alloc: Global,
    draft: &mut Draft,
    put: Put,
    key: usize,
    below: usize,
) -> Result<usize, NoMemory>
    ensures { IfOk result
        (λ p. (t u : SortOf) → IsDraft draft.old → is_scalar_sort t ≡ true → is_scalar_sort u ≡ true →
        sort_at draft.old put.key ≡ Some u → sort_at draft.old key ≡ Some u → sort_at draft.old put.word ≡ Some t → sort_at draft.old below ≡ Some t →
        HasValue draft.old draft.new p t
        (λ words. if same_scalar (value_of draft.old words put.key) (value_of draft.old words key) then value_of draft.old words put.word else value_of draft.old words below)) }
{
    let same = draft.equal(alloc, put.key, key)?;
    draft.choose(alloc, same, put.word, below)
}

/// The input that stands for what a map variable has at a key, None where no read is of both.
fn find_read(reads: &[Read], variable: usize, key: usize) -> Option<usize>
    ensures { IfSome result (λ word. IsFound reads.now variable key word) }
{
    for read in reads {
        if read.variable == variable && read.key == key {
            return Some(read.word);
        }
    }
    None
}

/// The input of a new read.
fn new_read(draft: &mut Draft, variable: usize, key: usize, width: u8) -> Result<usize, NoMemory>
    ensures { IfOk result (λ word. IsNewRead draft.old draft.new variable key width word) }
{
    let word = draft.widths.len();
    draft.widths.push(width)?;
    draft.reads.push(Read {
        variable,
        key,
        word,
    })?;
    Ok(word)
}

/// The input that stands for what a map variable has at a key, a new one where no read is of both.
fn input_of_read(
    draft: &mut Draft,
    variable: usize,
    key: usize,
    width: u8,
) -> Result<usize, NoMemory>
    ensures { IfOk result
        (λ word. (k : ℕ) → IsDraft draft.old → slice_get draft.old.sorts variable ≡ Some (MapSort k width) → sort_at draft.old key ≡ Some (BitsSort k) →
        HasRead draft.old draft.new variable key word) }
{
    match find_read(draft.reads.as_slice(), variable, key) {
        Some(word) => Ok(word),
        None => new_read(draft, variable, key, width),
    }
}

/// The place of what a map variable has at a key.
pub(crate) fn read_variable(
    draft: &mut Draft,
    variable: usize,
    key: usize,
    width: u8,
) -> Result<usize, NoMemory>
    ensures { IfOk result
        (λ p. (k : ℕ) (meant : List Value → ScalarOf) → IsDraft draft.old → slice_get draft.old.sorts variable ≡ Some (MapSort k width) → Stands draft.old key (BitsSort k) meant →
        IsPlaced draft.old draft.new p (BitsSort width) (λ v. Bits width (read (map_of (value_at v variable)).entries (word_of (meant v))))) }
{
    let word = input_of_read(draft, variable, key, width)?;
    draft.push(FlatNode::Input(word))
}

/// The place of a word that is fixed.
fn fix(draft: &mut Draft, width: u8, bits: u64) -> Result<usize, NoMemory>
    ensures { IfOk result (λ p. IsDraft draft.old → IsWidth width → bits < 2 ^ width → HasValue draft.old draft.new p (BitsSort width) (λ words. Bits width bits)) }
{
    draft.push(FlatNode::Fixed(Scalar::Bits { width, bits }))
}

/// The place of what a map with one more entry has at a key, where `below` is what it has without that entry.
fn over_entry(
    alloc: Global,
    draft: &mut Draft,
    widths: (u8, u8),
    entry: (u64, u64),
    key: usize,
    below: usize,
) -> Result<usize, NoMemory>
    ensures { IfOk result
        (λ p. IsDraft draft.old → IsWidth widths.0 → IsWidth widths.1 → FitsEntry widths.0 widths.1 entry →
        sort_at draft.old key ≡ Some (BitsSort widths.0) → sort_at draft.old below ≡ Some (BitsSort widths.1) →
        HasValue draft.old draft.new p (BitsSort widths.1)
        (λ words. if same_scalar (Bits widths.0 entry.0) (value_of draft.old words key) then Bits widths.1 entry.1 else value_of draft.old words below)) }
{
    let from = fix(draft, widths.0, entry.0)?;
    let to = fix(draft, widths.1, entry.1)?;
    let put = Put {
        key: from,
        word: to,
    };
    over(alloc, draft, put, key, below)
}

/// The place of what a map with these widths has at a key.
fn read_entries(
    alloc: Global,
    draft: &mut Draft,
    map: &MapValue,
    widths: (u8, u8),
    key: usize,
) -> Result<usize, NoMemory>
    ensures { IfOk result
        (λ p. IsDraft draft.old → IsMapping map.now → widths.0 ≡ map.now.key_width → widths.1 ≡ map.now.word_width → sort_at draft.old key ≡ Some (BitsSort widths.0) →
        HasValue draft.old draft.new p (BitsSort widths.1) (λ words. entry_at widths.0 widths.1 map.now.entries (value_of draft.old words key))) }
{
    let mut found = fix(draft, widths.1, 0)?;
    let count = map.len();
    for done in 0..count {
        let entry = map.entry(count - 1 - done);
        found = over_entry(alloc, draft, widths, entry, key, found)?;
    }
    Ok(found)
}

/// The place of what a constant map has at a key.
pub(crate) fn read_constant(
    alloc: Global,
    draft: &mut Draft,
    map: &MapValue,
    key: usize,
) -> Result<usize, NoMemory>
    ensures { IfOk result
        (λ p. IsDraft draft.old → sort_at draft.old key ≡ Some (BitsSort map.now.key_width) →
        HasValue draft.old draft.new p (BitsSort map.now.word_width) (λ words. entry_at map.now.key_width map.now.word_width map.now.entries (value_of draft.old words key))) }
{
    match map.sort() {
        DataSort::Map(keys, words) => read_entries(alloc, draft, map, (keys, words), key),
        _ => unreachable!(),
    }
}
