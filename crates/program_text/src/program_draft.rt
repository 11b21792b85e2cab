// A program of which some rows are there.
ghost use Rattle.std.specs.Prelude.{◌≡◌, ◌==◌, ◌<◌, false, [], ◌↔◌, ℕ, map, length, IsTrue, IsNone, IfOk, IfErr, IfSome};
ghost use Rattle.std.specs.List.{list_any};
ghost use Rattle.rule_text.specs.Faults.{TakesItem, IsItemError};
ghost use Rattle.rule_text.specs.declared.item.Item.{Item};
ghost use Rattle.program_text.specs.Rows.{RowsOf, rows_at, with_row, no_rows, HasNames, IsRowWithin, IsTableOf, program_loading};

use crate::ground_reader::GroundReader;
use crate::key_table::KeyTable;
use data_value::fits_width;
use no_memory::NoMemory;
use rule_text::{Draft, Item, ItemError, ItemFault, LoadFault, RawTree};
use sexp_text::Name;
use sort_term::{Row, RowLists, Rows, Semantics, Side, Table, TableId};
use sqlite_items::Items;
use std::alloc::Global;
use std::marker::Model;

/// The rows so far of each table of a semantics.
#[derive(Drop)]
pub struct ProgramDraft<'a, S: Side> {
    reader: GroundReader<'a, S>,
    row_lists: Vec<Rows>,
    key_tables: Vec<KeyTable>,
}

impl<'a, S: Side> Model for ProgramDraft<'a, S> {
    ghost use Rattle.std.specs.Prelude.{◌≡◌, map, length};
    ghost use Rattle.program_text.specs.Rows.{RowsOf, rows_code};

    ghost Value = { RowsOf };

    ghost coded = { rows_code };

    ghost view = { λ d. record { semantics = d.reader; rows = d.row_lists.items } };

    ghost invariant = { λ d. (map (λ rows. map (λ r. r.key) rows) d.row_lists.items ≡ d.key_tables.items) × (length d.row_lists.items ≡ length d.reader.tables) };
}

impl<'a, S: Side> ProgramDraft<'a, S> {
    /// No rows.
    pub fn new(alloc: Global, semantics: &'a Semantics<S>) -> Result<ProgramDraft<'a, S>, NoMemory>
        ensures { IfOk result (λ d. d ≡ no_rows semantics.now) }
    {
        let reader = GroundReader::new(alloc, semantics)?;
        match no_rows(alloc, semantics.tables().as_slice()) {
            Ok((row_lists, key_tables)) => Ok(ProgramDraft {
                reader,
                row_lists,
                key_tables,
            }),
            Err(NoMemory) => {
                drop(reader);
                Err(NoMemory)
            }
        }
    }

    /// For each table its rows.
    pub fn into_rows(self) -> RowLists
        ensures { result ≡ self.entry.rows }
    {
        let ProgramDraft {
            reader,
            row_lists,
            key_tables,
        } = self;
        drop((reader, key_tables));
        Items::from_vec(row_lists)
    }

    // The table that a row names, with its number, where the term names only constructors that are known.
    fn named(&self, name: &Name, term: &RawTree) -> Option<(TableId, &Table)>
        ensures some { IfSome result (λ t. IsTableOf self.now name.now (t.0, t.1.now) × HasNames self.now (Item.Row name.now 0 term.now)) }
        ensures none { (key : ℕ) → IsNone result → ¬ HasNames self.now (Item.Row name.now key term.now) }
    {
        let table = self.reader.table(name)?;
        if self.reader.is_named(term) {
            Some(table)
        } else {
            None
        }
    }

    // The rows so far of the table with this number.
    fn rows(&self, id: TableId) -> &Rows
        requires { id.0 < length self.now.semantics.tables }
        ensures { result.now ≡ rows_at self.now id }
    {
        &self.row_lists[id.0]
    }

    // Whether one more row keeps the limits.
    fn is_within(&self, id: TableId, table: &Table, key: u64, term: &RawTree) -> bool
        requires { id.0 < length self.now.semantics.tables }
        ensures { IsTrue result ↔ IsRowWithin self.now (id, table.now) key term.now }
    {
        self.rows(id).len() < 4096 && fits_width(table.key, key) && self.reader.is_within(term)
    }

    // Whether an earlier row of the table has the key.
    fn has_key(&self, id: TableId, key: u64) -> bool
        requires { id.0 < length self.now.semantics.tables }
        ensures { result ≡ list_any (λ r. r.key == key) (rows_at self.now id) }
    {
        self.key_tables[id.0].has(key)
    }

    // The row that an item writes, with the number of its table.
    fn row_of(
        &self,
        alloc: Global,
        name: &Name,
        key: u64,
        raw: &RawTree,
    ) -> Result<(TableId, Row), ItemError>
        ensures within { IfOk result (λ made. made.0.0 < length self.now.semantics.tables) }
        ensures new { IfOk result (λ made. list_any (λ r. r.key == made.1.key) (rows_at self.now made.0) ≡ false) }
        ensures taken { IfOk result
            (λ made. TakesItem program_loading self.now (Item.Row name.now key raw.now) (with_row self.now made.0 made.1)) }
        ensures fault { IfErr result (IsItemError program_loading self.now (Item.Row name.now key raw.now)) }
    {
        let Some((id, table)) = self.named(name, raw) else {
            return Err(ItemError::Fault(ItemFault::Name));
        };
        if !self.is_within(id, table, key, raw) {
            return Err(ItemError::Fault(ItemFault::Limit));
        }
        let Some(term) = self.reader.sorted_term(alloc, table.sort, raw)? else {
            return Err(ItemError::Fault(ItemFault::Sort));
        };
        if self.has_key(id, key) {
            drop(term);
            return Err(ItemError::Fault(ItemFault::DoubleKey));
        }
        Ok((id, Row { key, term }))
    }

    // With the row that an item writes.
    fn add_row(
        self,
        alloc: Global,
        name: &Name,
        key: u64,
        raw: &RawTree,
    ) -> Result<ProgramDraft<'a, S>, ItemError>
        ensures ok { IfOk result (TakesItem program_loading self.entry (Item.Row name.now key raw.now)) }
        ensures fault { IfErr result (IsItemError program_loading self.entry (Item.Row name.now key raw.now)) }
    {
        match self.row_of(alloc, name, key, raw) {
            Ok((id, row)) => Ok(self.with_row(id, row)?),
            Err(error) => {
                drop(self);
                Err(error)
            }
        }
    }

    // With one row more, whose key no earlier row has.
    fn with_row(self, id: TableId, row: Row) -> Result<ProgramDraft<'a, S>, NoMemory>
        requires within { id.0 < length self.semantics.tables }
        requires new { list_any (λ r. r.key == row.key) (rows_at self id) ≡ false }
        ensures { IfOk result (λ d. d ≡ with_row self.entry id row) }
    {
        let mut draft = self;
        draft.key_tables[id.0].push(row.key)?;
        draft.row_lists[id.0].push(row)?;
        Ok(draft)
    }
}

impl<'a, S: Side> Draft for ProgramDraft<'a, S> {
    ghost loading = { program_loading };

    fn add(self, alloc: Global, item: &Item) -> Result<ProgramDraft<'a, S>, ItemError> {
        match item {
            Item::Row { table, key, term } => self.add_row(alloc, table, *key, term),
            _ => {
                drop(self);
                Err(ItemError::Fault(ItemFault::Shape))
            }
        }
    }

    fn lacking(&self) -> Option<LoadFault> {
        None
    }
}

// For each table no rows and no keys.
fn no_rows(alloc: Global, tables: &[Table]) -> Result<(Vec<Rows>, Vec<KeyTable>), NoMemory>
    ensures rows { IfOk result (λ made. made.0.items ≡ map (λ _. []) tables.now) }
    ensures keys { IfOk result (λ made. made.1.items ≡ map (λ _. []) tables.now) }
{
    let row_lists = no_row_lists(alloc, tables)?;
    match no_key_tables(alloc, tables) {
        Ok(key_tables) => Ok((row_lists, key_tables)),
        Err(NoMemory) => {
            drop(row_lists);
            Err(NoMemory)
        }
    }
}

// For each table no rows.
fn no_row_lists(alloc: Global, tables: &[Table]) -> Result<Vec<Rows>, NoMemory>
    ensures { IfOk result (λ lists. lists.items ≡ map (λ _. []) tables.now) }
{
    let mut lists = Vec::new(alloc);
    for _table in tables {
        lists.push(Items::new(alloc))?;
    }
    Ok(lists)
}

// For each table no keys.
fn no_key_tables(alloc: Global, tables: &[Table]) -> Result<Vec<KeyTable>, NoMemory>
    ensures { IfOk result (λ keys. keys.items ≡ map (λ _. []) tables.now) }
{
    let mut keys = Vec::new(alloc);
    for _table in tables {
        keys.push(KeyTable::new(alloc))?;
    }
    Ok(keys)
}
