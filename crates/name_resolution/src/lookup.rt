// Looking up what is known by name.
ghost use Rattle.std.specs.Prelude.{◌≡◌, option_map};
ghost use Rattle.name_resolution.specs.Known.{vocabulary_of, declared_sort, sort_of, con_of, table_of};

use crate::known::Known;
use crate::numbers::is_width;
use data_value::DataSort;
use rule_text::RawSort;
use sexp_text::Name;
use sort_term::{Con, ConId, Sort, SortId, Table, TableId};

impl<'a> Known<'a> {
    /// The number of a declared sort; None for an unknown name. It takes no memory.
    pub fn declared(&self, name: &Name) -> Option<SortId>
        ensures { result ≡ declared_sort (vocabulary_of self.now) name.now }
    {
        match self.sort_names.place(name) {
            Some(place) => Some(SortId(place)),
            None => None,
        }
    }

    /// The sort that is written: one of data with widths from 1 to 64, or a declared sort; else None. It takes no memory.
    pub fn sort(&self, raw: &RawSort) -> Option<Sort>
        ensures { result ≡ sort_of (vocabulary_of self.now) raw.now }
    {
        match raw {
            RawSort::Bool => Some(Sort::Plain(DataSort::Bool)),
            RawSort::Bits(width) => {
                if is_width(*width) {
                    Some(Sort::Plain(DataSort::Bits(*width as u8)))
                } else {
                    None
                }
            }
            RawSort::Map(key, word) => {
                if is_width(*key) && is_width(*word) {
                    Some(Sort::Plain(DataSort::Map(*key as u8, *word as u8)))
                } else {
                    None
                }
            }
            RawSort::Named(name) => match self.declared(name) {
                Some(sort) => Some(Sort::Own(sort)),
                None => None,
            },
        }
    }

    /// A constructor by its name, with its number; None for an unknown name. It takes no memory.
    pub fn con(&self, name: &Name) -> Option<(ConId, &'a Con)>
        ensures { option_map (λ found. (found.0, found.1.now)) result ≡ con_of (vocabulary_of self.now) name.now }
    {
        let place = self.con_names.place(name)?;
        match self.cons.get(place) {
            Some(con) => Some((ConId(place), con)),
            None => None,
        }
    }

    /// A table by its name, with its number; None for an unknown name. It takes no memory.
    pub fn table(&self, name: &Name) -> Option<(TableId, &'a Table)>
        ensures { option_map (λ found. (found.0, found.1.now)) result ≡ table_of (vocabulary_of self.now) name.now }
    {
        let place = self.table_names.place(name)?;
        match self.tables.get(place) {
            Some(table) => Some((TableId(place), table)),
            None => None,
        }
    }
}
