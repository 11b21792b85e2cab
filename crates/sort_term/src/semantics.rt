ghost use Rattle.std.specs.Prelude.{◌≡◌};

use crate::ids::SortId;
use crate::rule::Rules;
use crate::term::{Side, Sort, Sorts};
use sexp_text::Name;
use sqlite_items::Items;
use std::marker::{Model, PhantomData};

/// The names of the declared sorts, in the order of the text.
pub type Names = Items<Name>;

/// A constructor.
#[derive(Drop)]
pub struct Con {
    /// The constructor's name.
    pub name: Name,
    /// The sorts of its arguments.
    pub args: Sorts,
    /// The declared sort of the trees that it makes.
    pub sort: SortId,
}

/// The constructors of a semantics, in the order of the text.
pub type Cons = Items<Con>;

/// A table. A program gives it rows; a rule reads the row with a key.
#[derive(Drop)]
pub struct Table {
    /// The table's name.
    pub name: Name,
    /// The width of its keys in bits.
    pub key: u8,
    /// The sort of the terms of its rows.
    pub sort: Sort,
}

/// The tables of a semantics, in the order of the text.
pub type Tables = Items<Table>;

/// The semantics of side `S`: sorts, constructors, tables, the configuration sort and rules.
#[derive(Drop)]
pub struct Semantics<S: Side> {
    sort_names: Names,
    cons: Cons,
    tables: Tables,
    rules: Rules,
    config: SortId,
    side: PhantomData<S>,
}

impl<S: Side> Model for Semantics<S> {
    ghost use Rattle.sort_term.specs.System.{System, system_code, system_of};
    ghost use Rattle.sort_term.specs.Rules.{IsSemantics};

    ghost Value = { System };

    ghost coded = { system_code };

    ghost view = { λ s. system_of s.sort_names s.cons s.tables s.rules s.config };

    ghost invariant = { λ s. IsSemantics (system_of s.sort_names s.cons s.tables s.rules s.config) };
}

impl<S: Side> Semantics<S> {
    ghost use Rattle.sort_term.specs.System.{System, system_of};
    ghost use Rattle.sort_term.specs.Rules.{IsSemantics};

    /// The semantics with these parts. They pass their checks, which `is_semantics` tells.
    pub fn new(
        sorts: Names,
        cons: Cons,
        tables: Tables,
        rules: Rules,
        config: SortId,
    ) -> Semantics<S>
        requires { IsSemantics (system_of sorts cons tables rules config) }
        ensures { result ≡ system_of sorts cons tables rules config }
    {
        Semantics {
            sort_names: sorts,
            cons,
            tables,
            rules,
            config,
            side: PhantomData,
        }
    }

    /// The names of the declared sorts, in the order of the text.
    pub fn sorts(&self) -> &Names
        ensures value { result.now ≡ self.now.sorts }
        ensures valid { IsSemantics self.now }
    {
        &self.sort_names
    }

    /// The constructors, in the order of the text.
    pub fn cons(&self) -> &Cons
        ensures value { result.now ≡ self.now.cons }
        ensures valid { IsSemantics self.now }
    {
        &self.cons
    }

    /// The tables, in the order of the text.
    pub fn tables(&self) -> &Tables
        ensures value { result.now ≡ self.now.tables }
        ensures valid { IsSemantics self.now }
    {
        &self.tables
    }

    /// The rules, in the order of the text.
    pub fn rules(&self) -> &Rules
        ensures value { result.now ≡ self.now.rules }
        ensures valid { IsSemantics self.now }
    {
        &self.rules
    }

    /// The sort of the states.
    pub fn config(&self) -> SortId
        ensures value { result ≡ self.now.config }
        ensures valid { IsSemantics self.now }
    {
        self.config
    }
}
