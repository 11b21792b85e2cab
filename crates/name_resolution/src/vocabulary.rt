// The names of a loaded semantics.
ghost use Rattle.std.specs.Prelude.{◌≡◌, map, IfOk};
ghost use Rattle.sort_term.specs.Names.{AreDistinct};
ghost use Rattle.name_resolution.specs.Known.{vocabulary_of, vocabulary_in};

use crate::known::Known;
use crate::names::NameTable;
use no_memory::NoMemory;
use sort_term::{Con, Named, Semantics, Side, Table};
use std::alloc::Global;
use std::marker::Model;

/// What a text may name of a loaded semantics.
#[derive(Drop)]
pub struct Vocabulary<'a> {
    sort_names: NameTable,
    con_names: NameTable,
    con_list: &'a [Con],
    table_names: NameTable,
    table_list: &'a [Table],
}

impl<'a> Model for Vocabulary<'a> {
    ghost use Rattle.std.specs.Prelude.{◌≡◌, map};
    ghost use Rattle.name_resolution.specs.Known.{Vocabulary};

    ghost Value = { Vocabulary };

    ghost view = { λ v. record { sorts = v.sort_names; cons = v.con_list.now; tables = v.table_list.now } };

    ghost invariant = { λ v. (v.con_names ≡ map (λ c. c.name) v.con_list.now) × (v.table_names ≡ map (λ t. t.name) v.table_list.now) };
}

impl<'a> Vocabulary<'a> {
    /// The names of a semantics.
    pub fn of<S: Side>(
        alloc: Global,
        semantics: &'a Semantics<S>,
    ) -> Result<Vocabulary<'a>, NoMemory>
        ensures { IfOk result (λ v. v ≡ vocabulary_in semantics.now) }
    {
        let con_list = semantics.cons().as_slice();
        let table_list = semantics.tables().as_slice();
        Ok(Vocabulary {
            sort_names: name_table(alloc, semantics.sorts().as_slice())?,
            con_names: name_table(alloc, con_list)?,
            con_list,
            table_names: name_table(alloc, table_list)?,
            table_list,
        })
    }

    /// What is known by name.
    pub fn known(&self) -> Known<'_>
        ensures { vocabulary_of result ≡ self.now }
    {
        Known {
            sort_names: &self.sort_names,
            con_names: &self.con_names,
            cons: self.con_list,
            table_names: &self.table_names,
            tables: self.table_list,
        }
    }
}

// The numbers of things by their names, of which no two are the same.
fn name_table<T: Named>(alloc: Global, items: &[T]) -> Result<NameTable, NoMemory>
    requires { AreDistinct T.name_of items.now }
    ensures { IfOk result (λ t. t ≡ map T.name_of items.now) }
{
    let mut table = NameTable::new(alloc);
    for item in items {
        table.declare_word(alloc, item.name())?;
    }
    Ok(table)
}
