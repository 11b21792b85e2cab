// The entries of maps.
ghost use Rattle.std.specs.Prelude.{◌≡◌, IsTrue, IfOk, Some};
ghost use Rattle.std.specs.List.{list_all};
ghost use Rattle.data_value.specs.Maps.{rises_from};
ghost use Rattle.name_resolution.specs.Known.{is_pair_within, are_entries, mapping_of};

use crate::numbers::is_width;
use data_value::{MapValue, fits_width};
use no_memory::NoMemory;
use std::alloc::Global;

/// Whether entries are those of a map between words of these widths: the widths are from 1 to 64, the keys rise, and each
/// number fits its width.
pub fn are_entries(key: u64, word: u64, entries: &[(u64, u64)]) -> bool
    ensures { result ≡ are_entries key word entries.now }
{
    if !(is_width(key) && is_width(word)) {
        return false;
    }
    do_keys_rise(entries) && are_pairs_within(key as u8, word as u8, entries)
}

// Whether each key and each word fits its width.
fn are_pairs_within(key: u8, word: u8, entries: &[(u64, u64)]) -> bool
    ensures { result ≡ list_all (is_pair_within key word) entries.now }
{
    entries
        .iter()
        .all(|entry| is_pair_within(key, word, *entry))
}

// Whether a key and a word fit their widths.
fn is_pair_within(key: u8, word: u8, entry: (u64, u64)) -> bool
    ensures { result ≡ is_pair_within key word entry }
{
    fits_width(key, entry.0) && fits_width(word, entry.1)
}

// Whether each key is larger than the one before it.
fn do_keys_rise(entries: &[(u64, u64)]) -> bool
    ensures { result ≡ rises_from 0 entries.now }
{
    for i in 1..entries.len() {
        if entries[i].0 <= entries[i - 1].0 {
            return false;
        }
    }
    true
}

/// The map with these entries, those with the word zero left out; None where they are those of no map.
pub fn map_of(
    alloc: Global,
    key: u64,
    word: u64,
    entries: &[(u64, u64)],
) -> Result<Option<MapValue>, NoMemory>
    ensures { IfOk result (λ m. m ≡ mapping_of key word entries.now) }
{
    if !are_entries(key, word, entries) {
        return Ok(None);
    }
    let map = filled(alloc, key as u8, word as u8, entries)?;
    Ok(Some(map))
}

// The map with these entries, whose keys rise.
fn filled(alloc: Global, key: u8, word: u8, entries: &[(u64, u64)]) -> Result<MapValue, NoMemory>
    requires { IsTrue (are_entries key word entries.now) }
    ensures { IfOk result (λ m. Some m ≡ mapping_of key word entries.now) }
{
    let mut map = MapValue::zeros(alloc, key, word);
    for entry in entries {
        map = map.put(alloc, entry.0, entry.1)?;
    }
    Ok(map)
}
