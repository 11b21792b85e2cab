// What is known by name.
ghost use Rattle.std.specs.Prelude.{◌≡◌, map};

use crate::names::NameTable;
use sort_term::{Con, Table};

/// The sorts, constructors and tables that the items so far declare.
#[derive(Drop)]
pub struct Known<'a> {
    /// The names of the sorts.
    pub sort_names: &'a NameTable,
    /// The names of the constructors.
    pub con_names: &'a NameTable,
    /// The constructors, by number.
    pub cons: &'a [Con],
    /// The names of the tables.
    pub table_names: &'a NameTable,
    /// The tables, by number.
    pub tables: &'a [Table],
    /// The names are those of the constructors.
    pub ghost cons_named: { con_names.now ≡ map (λ c. c.name) cons.now },
    /// The names are those of the tables.
    pub ghost tables_named: { table_names.now ≡ map (λ t. t.name) tables.now },
}
