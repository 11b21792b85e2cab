//! The variables of formulas, by their words.
ghost use Rattle.std.specs.Prelude.{IfOk};
ghost use Rattle.data_value.specs.Sorts.{IsSort};
ghost use Rattle.data_value.specs.Nodes.{Extends};

use data_value::{DataSort, Symbolic, is_sort};
use example_cases::Failed;
use indexmap::IndexSet;
use std::alloc::Global;

/// The words of variables, in the order of their indexes.
#[derive(Drop)]
pub struct Names {
    words: IndexSet<Vec<u8>>,
}

impl Names {
    /// No variables.
    pub fn new(alloc: Global) -> Names {
        Names {
            words: IndexSet::new(alloc),
        }
    }

    /// The words of the variables.
    pub fn get(&self, index: usize) -> Option<&[u8]> {
        Some(self.words.get_index(index)?.as_slice())
    }
}

/// The index of the variable that a word is, which is declared where it is new.
pub(crate) fn index_of<D: Symbolic>(
    alloc: Global,
    d: &mut D,
    names: &mut Names,
    word: &[u8],
) -> Result<usize, Failed>
    ensures { Extends (D.look d.old) (D.look d.new) }
{
    if let Some(index) = names.words.get_index_of(word) {
        return Ok(index);
    }
    let sort = sort_of_word(word)?;
    names.words.insert(Vec::from_slice(alloc, word)?)?;
    Ok(d.fresh(sort)?)
}

// The sort that a word tells behind its name.
fn sort_of_word(word: &[u8]) -> Result<DataSort, Failed>
    ensures { IfOk result (λ sort. IsSort sort) }
{
    match sort_behind_name(word) {
        Some(sort) if is_sort(sort) => Ok(sort),
        _ => Err(Failed::NoCall),
    }
}

fn sort_behind_name(word: &[u8]) -> Option<DataSort> {
    let text = std::str::from_utf8(word).ok()?;
    let (_name, sort) = text.split_once('@')?;
    match sort.split_once('@') {
        Some((key, word)) => Some(DataSort::Map(width(key)?, width(word)?)),
        None if sort == "bool" => Some(DataSort::Bool),
        None => Some(DataSort::Bits(width(sort)?)),
    }
}

// The number of decimal digits. `parse` alone would take a plus in front.
fn width(digits: &str) -> Option<u8> {
    if digits.starts_with('+') {
        return None;
    }
    digits.parse::<u8>().ok()
}
