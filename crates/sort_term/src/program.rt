ghost use Rattle.std.specs.Prelude.{◌≡◌, ◌<◌, length, slice_get, Some};
ghost use Rattle.std.specs.Option.{option_copied};

use crate::ids::TableId;
use crate::term::{Side, Term};
use data_value::Value;
use sqlite_items::Items;
use std::marker::{Model, PhantomData};

/// A row of a table.
#[derive(Drop)]
pub struct Row {
    /// The key, as an unsigned number.
    pub key: u64,
    /// The term that a rule reads at this key.
    pub term: Term<Value>,
}

/// The rows of one table, in the order of the text.
pub type Rows = Items<Row>;

/// For each table its rows.
pub type RowLists = Items<Rows>;

/// A program of side `S`: for each table of its semantics the rows.
#[derive(Drop)]
pub struct Program<S: Side> {
    row_lists: RowLists,
    side: PhantomData<S>,
}

impl<S: Side> Model for Program<S> {
    ghost use Rattle.std.specs.Prelude.{List};
    ghost use Rattle.std.specs.Coded.{coded_list};
    ghost use Rattle.sort_term.specs.declared.program.Row.{Row};
    ghost use Rattle.sort_term.specs.contracts.program.Row as row;

    ghost Value = { List (List Row) };

    ghost coded = { coded_list (coded_list row.the_row.coded) };

    ghost view = { λ p. p.row_lists };
}

impl<S: Side> Program<S> {
    /// The program with these rows, one list for each table.
    pub fn new(rows: RowLists) -> Program<S>
        ensures { result ≡ rows }
    {
        Program {
            row_lists: rows,
            side: PhantomData,
        }
    }

    /// The rows of a table, in the order of the text; None where the program has no such table. It takes no memory.
    pub fn get(&self, table: TableId) -> Option<&Rows>
        ensures { option_copied result ≡ slice_get self.now table.0 }
    {
        self.row_lists.get(table.0)
    }

    /// The rows of a table, in the order of the text.
    pub fn rows(&self, table: TableId) -> &Rows
        requires { table.0 < length self.now }
        ensures { slice_get self.now table.0 ≡ Some result.now }
    {
        match self.row_lists.get(table.0) {
            Some(rows) => rows,
            None => unreachable!(),
        }
    }
}
