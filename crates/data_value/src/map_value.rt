//! Maps by their entries that aren't zero.
ghost use Rattle.std.specs.Prelude.{◌≡◌, ◌<◌, ◌^◌, [], length, slice_get, IsTrue, ◌↔◌, IfOk, Some};
ghost use Rattle.data_value.specs.Maps.{IsMapping, zero_map, read, write, put_into, entries_below, entries_above};
ghost use Rattle.data_value.specs.Sorts.{IsWidth};
ghost use Rattle.data_value.specs.Values.{map_sort};
ghost use Rattle.data_value.specs.MapKeys.{same_mapping, same_mapping_equiv, mapping_input, mapping_alike};
ghost use Rattle.std.specs.Cmp as cmp;

use crate::{DataSort, NoMemory, Scalar};
use std::alloc::{AllocError, Global};
use std::hash::{Hash, Hasher};
use std::marker::Model;

/// A map that gives each key of one width a word of another, all but finitely many of them zero. It is kept as its
/// entries that aren't zero, keys rising, so that equal maps have equal entries.
#[derive(Debug, Drop)]
pub struct MapValue {
    key_width: u8,
    word_width: u8,
    entries: Vec<(u64, u64)>,
}

impl Model for MapValue {
    ghost use Rattle.data_value.specs.Maps.{Mapping, IsMapping};

    ghost Value = { Mapping };

    ghost view = { λ m. record { key_width = m.key_width; word_width = m.word_width; entries = m.entries.items } };

    ghost invariant = { λ m. IsMapping (record { key_width = m.key_width; word_width = m.word_width; entries = m.entries.items }) };
}

impl MapValue {
    /// The map from keys of `key` bits to words of `value` bits that is zero at every key. It takes no memory.
    pub fn zeros(alloc: Global, key: u8, value: u8) -> MapValue
        requires key_width { IsWidth key }
        requires word_width { IsWidth value }
        ensures { result ≡ zero_map key value }
    {
        MapValue {
            key_width: key,
            word_width: value,
            entries: Vec::new(alloc),
        }
    }

    /// The word at `key`, which is zero where no entry has the key.
    pub fn get(&self, key: u64) -> u64
        ensures { result ≡ read self.now.entries key }
    {
        for entry in &self.entries {
            if entry.0 == key {
                return entry.1;
            }
        }
        0
    }

    /// The word at `key`, with its width.
    pub(crate) fn word(&self, key: u64) -> Scalar
        ensures { result ≡ Scalar.Bits self.now.word_width (read self.now.entries key) }
    {
        Scalar::Bits {
            width: self.word_width,
            bits: self.get(key),
        }
    }

    /// The map's sort, with the width of its keys and the width of its words.
    pub fn sort(&self) -> DataSort
        ensures sort { result ≡ map_sort self.now }
        ensures mapping { IsMapping self.now }
    {
        DataSort::Map(self.key_width, self.word_width)
    }

    /// The number of entries that aren't zero.
    pub fn len(&self) -> usize
        ensures { result ≡ length self.now.entries }
    {
        self.entries.len()
    }

    /// Whether the map is zero at every key.
    pub fn is_empty(&self) -> bool
        ensures { IsTrue result ↔ (self.now.entries ≡ []) }
    {
        self.entries.is_empty()
    }

    /// The key and the word of the entry at `place`, counted from 0 in the order of the keys.
    pub fn entry(&self, place: usize) -> (u64, u64)
        requires { place < length self.now.entries }
        ensures { slice_get self.now.entries place ≡ Some result }
    {
        self.entries[place]
    }

    /// The map with `word` at `key`, and at every other key what this one has; a word of zero leaves no entry. It fails
    /// only for want of memory.
    pub fn put(&self, alloc: Global, key: u64, word: u64) -> Result<MapValue, NoMemory>
        requires key { key < 2 ^ self.now.key_width }
        requires word { word < 2 ^ self.now.word_width }
        ensures { IfOk result (λ m. m ≡ put_into self.now key word) }
    {
        let entries = written(alloc, &self.entries, key, word)?;
        Ok(MapValue {
            key_width: self.key_width,
            word_width: self.word_width,
            entries,
        })
    }

    /// A map that equals this one. It fails only for want of memory.
    pub fn copy(&self, alloc: Global) -> Result<MapValue, NoMemory>
        ensures { IfOk result (λ m. m ≡ self.now) }
    {
        let entries = Vec::from_slice(alloc, &self.entries)?;
        Ok(MapValue {
            key_width: self.key_width,
            word_width: self.word_width,
            entries,
        })
    }
}

// Two maps are equal exactly where their widths are and the word at every key.
impl PartialEq for MapValue {
    ghost eq = { same_mapping };

    ghost laws = { cmp.partial_equiv_from_equiv same_mapping_equiv };

    fn eq(&self, other: &MapValue) -> bool {
        self.key_width == other.key_width
            && self.word_width == other.word_width
            && self.entries == other.entries
    }
}

impl Eq for MapValue {
    ghost laws = { same_mapping_equiv };
}

impl Hash for MapValue {
    ghost hash_input = { mapping_input };

    ghost respects_eq = { mapping_alike.fed };

    fn hash<H: Hasher>(&self, state: &mut H) {
        self.key_width.hash(state);
        self.word_width.hash(state);
        self.entries.hash(state);
    }
}

/// The entries with `word` at `key`.
fn written(
    alloc: Global,
    entries: &[(u64, u64)],
    key: u64,
    word: u64,
) -> Result<Vec<(u64, u64)>, AllocError>
    ensures { IfOk result (λ v. v.items ≡ write entries.now key word) }
{
    let mut all = below(alloc, entries, key)?;
    if word != 0 {
        all.push((key, word))?;
    }
    let mut rest = above(alloc, entries, key)?;
    all.append(&mut rest)?;
    Ok(all)
}

fn below(alloc: Global, entries: &[(u64, u64)], key: u64) -> Result<Vec<(u64, u64)>, AllocError>
    ensures { IfOk result (λ v. v.items ≡ entries_below key entries.now) }
{
    entries.iter().copied().filter(|e| e.0 < key).collect(alloc)
}

fn above(alloc: Global, entries: &[(u64, u64)], key: u64) -> Result<Vec<(u64, u64)>, AllocError>
    ensures { IfOk result (λ v. v.items ≡ entries_above key entries.now) }
{
    entries.iter().copied().filter(|e| key < e.0).collect(alloc)
}
