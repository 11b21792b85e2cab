// A semantics of which some items are there.
ghost use Rattle.std.specs.Prelude.{◌≡◌, ◌↔◌, IsTrue, length, map, IfOk, IsSome};
ghost use Rattle.name_resolution.specs.Known.{vocabulary_of};
ghost use Rattle.name_resolution.specs.Names.{IsNew};
ghost use Rattle.semantics_load.specs.Declaring.{Declared, nothing, known_in};
ghost use Rattle.semantics_load.specs.Pieces.{with_piece};
ghost use Rattle.semantics_load.specs.Names.{IsPieceNew};
ghost use Rattle.semantics_load.specs.Drafts.{IsDraft};
ghost use Rattle.semantics_load.specs.Text.{declared_by};
ghost use Rattle.semantics_load.specs.Loads.{semantics_loading, lacking_config};

use crate::checks::lawful_piece;
use crate::piece::Piece;
use name_resolution::{Known, NameTable};
use no_memory::NoMemory;
use rule_text::{Draft, Item, ItemError, LoadFault};
use sexp_text::Name;
use sort_term::{Con, Cons, Names, Rule, Rules, Semantics, Side, SortId, Table, Tables};
use sqlite_items::Items;
use std::alloc::Global;
use std::marker::Model;

/// What the items so far declare.
#[derive(Drop)]
pub struct SemanticsDraft {
    sort_names: NameTable,
    sort_list: Names,
    con_names: NameTable,
    con_list: Cons,
    table_names: NameTable,
    table_list: Tables,
    rule_names: NameTable,
    rule_list: Rules,
    state_sort: Option<SortId>,
}

impl Model for SemanticsDraft {
    ghost use Rattle.std.specs.Prelude.{◌≡◌, map};
    ghost use Rattle.semantics_load.specs.Declaring.{Declared, declared_code};

    ghost Value = { Declared };

    ghost coded = { declared_code };

    ghost view = { λ d. record { sorts = d.sort_list; cons = d.con_list; tables = d.table_list; config = d.state_sort; rules = d.rule_list } };

    ghost invariant = { λ d. (d.sort_names ≡ d.sort_list) × (d.con_names ≡ map (λ c. c.name) d.con_list) × (d.table_names ≡ map (λ t. t.name) d.table_list) × (d.rule_names ≡ map (λ r. r.name) d.rule_list) };
}

impl SemanticsDraft {
    /// No items.
    pub fn new(alloc: Global) -> SemanticsDraft
        ensures { result ≡ nothing }
    {
        SemanticsDraft {
            sort_names: NameTable::new(alloc),
            sort_list: Items::new(alloc),
            con_names: NameTable::new(alloc),
            con_list: Items::new(alloc),
            table_names: NameTable::new(alloc),
            table_list: Items::new(alloc),
            rule_names: NameTable::new(alloc),
            rule_list: Items::new(alloc),
            state_sort: None,
        }
    }

    /// What the next item may name.
    pub fn known(&self) -> Known<'_>
        ensures { vocabulary_of result ≡ known_in self.now }
    {
        Known {
            sort_names: &self.sort_names,
            con_names: &self.con_names,
            cons: self.con_list.as_slice(),
            table_names: &self.table_names,
            tables: self.table_list.as_slice(),
        }
    }

    /// The sort of the states, if it is told.
    pub fn config(&self) -> Option<SortId>
        ensures { result ≡ self.now.config }
    {
        self.state_sort
    }

    /// How many sorts there are.
    pub fn sort_count(&self) -> usize
        ensures { result ≡ length self.now.sorts }
    {
        self.sort_list.len()
    }

    /// How many rules there are.
    pub fn rule_count(&self) -> usize
        ensures { result ≡ length self.now.rules }
    {
        self.rule_list.len()
    }

    /// Whether no rule has a name.
    pub fn is_new_rule(&self, name: &Name) -> bool
        ensures { IsTrue result ↔ IsNew name.now (map (λ r. r.name) self.now.rules) }
    {
        self.rule_names.is_new(name)
    }

    /// The semantics that the items declare, where the sort of the states is told.
    pub fn into_semantics<S: Side>(self) -> Semantics<S>
        requires lawful { IsDraft self }
        requires told { IsSome self.config }
        ensures { declared_by result ≡ self }
    {
        let SemanticsDraft {
            sort_names,
            sort_list,
            con_names,
            con_list,
            table_names,
            table_list,
            rule_names,
            rule_list,
            state_sort,
        } = self;
        drop((sort_names, con_names, table_names, rule_names));
        match state_sort {
            Some(config) => Semantics::new(sort_list, con_list, table_list, rule_list, config),
            None => unreachable!(),
        }
    }

    // With what one more item says, which has a new name.
    fn with_piece(self, alloc: Global, piece: Piece) -> Result<SemanticsDraft, NoMemory>
        requires new { IsPieceNew self piece }
        ensures { IfOk result (λ d. d ≡ with_piece self piece) }
    {
        match piece {
            Piece::Sort(name) => self.with_sort(alloc, name),
            Piece::Con(con) => self.with_con(alloc, con),
            Piece::Table(table) => self.with_table(alloc, table),
            Piece::Config(sort) => Ok(self.with_config(sort)),
            Piece::Rule(rule) => self.with_rule(alloc, rule),
        }
    }

    // With one more sort.
    fn with_sort(self, alloc: Global, name: Name) -> Result<SemanticsDraft, NoMemory>
        requires new { IsPieceNew self (Piece.Sort name) }
        ensures { IfOk result (λ d. d ≡ with_piece self (Piece.Sort name)) }
    {
        let SemanticsDraft {
            sort_names,
            sort_list,
            con_names,
            con_list,
            table_names,
            table_list,
            rule_names,
            rule_list,
            state_sort,
        } = self;
        match sort_names.with_one(alloc, sort_list, name) {
            Ok((sort_names, sort_list)) => Ok(SemanticsDraft {
                sort_names,
                sort_list,
                con_names,
                con_list,
                table_names,
                table_list,
                rule_names,
                rule_list,
                state_sort,
            }),
            Err(refused) => {
                drop((
                    con_names,
                    con_list,
                    table_names,
                    table_list,
                    rule_names,
                    rule_list,
                ));
                Err(refused)
            }
        }
    }

    // With one more constructor.
    fn with_con(self, alloc: Global, con: Con) -> Result<SemanticsDraft, NoMemory>
        requires new { IsPieceNew self (Piece.Con con) }
        ensures { IfOk result (λ d. d ≡ with_piece self (Piece.Con con)) }
    {
        let SemanticsDraft {
            sort_names,
            sort_list,
            con_names,
            con_list,
            table_names,
            table_list,
            rule_names,
            rule_list,
            state_sort,
        } = self;
        match con_names.with_one(alloc, con_list, con) {
            Ok((con_names, con_list)) => Ok(SemanticsDraft {
                sort_names,
                sort_list,
                con_names,
                con_list,
                table_names,
                table_list,
                rule_names,
                rule_list,
                state_sort,
            }),
            Err(refused) => {
                drop((
                    sort_names,
                    sort_list,
                    table_names,
                    table_list,
                    rule_names,
                    rule_list,
                ));
                Err(refused)
            }
        }
    }

    // With one more table.
    fn with_table(self, alloc: Global, table: Table) -> Result<SemanticsDraft, NoMemory>
        requires new { IsPieceNew self (Piece.Table table) }
        ensures { IfOk result (λ d. d ≡ with_piece self (Piece.Table table)) }
    {
        let SemanticsDraft {
            sort_names,
            sort_list,
            con_names,
            con_list,
            table_names,
            table_list,
            rule_names,
            rule_list,
            state_sort,
        } = self;
        match table_names.with_one(alloc, table_list, table) {
            Ok((table_names, table_list)) => Ok(SemanticsDraft {
                sort_names,
                sort_list,
                con_names,
                con_list,
                table_names,
                table_list,
                rule_names,
                rule_list,
                state_sort,
            }),
            Err(refused) => {
                drop((
                    sort_names, sort_list, con_names, con_list, rule_names, rule_list,
                ));
                Err(refused)
            }
        }
    }

    // With the sort of the states.
    fn with_config(self, sort: SortId) -> SemanticsDraft
        ensures { result ≡ with_piece self (Piece.Config sort) }
    {
        let mut draft = self;
        draft.state_sort = Some(sort);
        draft
    }

    // With one more rule.
    fn with_rule(self, alloc: Global, rule: Rule) -> Result<SemanticsDraft, NoMemory>
        requires new { IsPieceNew self (Piece.Rule rule) }
        ensures { IfOk result (λ d. d ≡ with_piece self (Piece.Rule rule)) }
    {
        let SemanticsDraft {
            sort_names,
            sort_list,
            con_names,
            con_list,
            table_names,
            table_list,
            rule_names,
            rule_list,
            state_sort,
        } = self;
        match rule_names.with_one(alloc, rule_list, rule) {
            Ok((rule_names, rule_list)) => Ok(SemanticsDraft {
                sort_names,
                sort_list,
                con_names,
                con_list,
                table_names,
                table_list,
                rule_names,
                rule_list,
                state_sort,
            }),
            Err(refused) => {
                drop((
                    sort_names,
                    sort_list,
                    con_names,
                    con_list,
                    table_names,
                    table_list,
                ));
                Err(refused)
            }
        }
    }
}

impl Draft for SemanticsDraft {
    ghost loading = { semantics_loading };

    fn add(self, alloc: Global, item: &Item) -> Result<SemanticsDraft, ItemError> {
        match lawful_piece(alloc, &self, item) {
            Ok(piece) => Ok(self.with_piece(alloc, piece)?),
            Err(error) => {
                drop(self);
                Err(error)
            }
        }
    }

    fn lacking(&self) -> Option<LoadFault> {
        match self.state_sort {
            Some(_) => None,
            None => Some(LoadFault::NoConfig),
        }
    }
}
