// The state of a start text, if it is told.
ghost use Rattle.std.specs.Prelude.{◌≡◌, Some, IfOk, IfErr};
ghost use Rattle.rule_text.specs.Faults.{TakesItem, IsItemError};
ghost use Rattle.rule_text.specs.declared.item.Item.{Item};
ghost use Rattle.program_text.specs.States.{no_start, start_loading};

use crate::ground_reader::GroundReader;
use data_value::Value;
use no_memory::NoMemory;
use rule_text::{Draft, Item, ItemError, ItemFault, LoadFault, RawTree};
use sort_term::{Semantics, Side, Term};
use std::alloc::Global;
use std::marker::Model;

/// The tree of a start text, if it is told.
#[derive(Drop)]
pub struct StartDraft<'a, S: Side> {
    reader: GroundReader<'a, S>,
    tree: Option<Term<Value>>,
}

impl<'a, S: Side> Model for StartDraft<'a, S> {
    ghost use Rattle.program_text.specs.States.{StartOf, start_code};

    ghost Value = { StartOf };

    ghost coded = { start_code };

    ghost view = { λ d. record { semantics = d.reader; tree = d.tree } };
}

impl<'a, S: Side> StartDraft<'a, S> {
    /// No tree.
    pub fn new(alloc: Global, semantics: &'a Semantics<S>) -> Result<StartDraft<'a, S>, NoMemory>
        ensures { IfOk result (λ d. d ≡ no_start semantics.now) }
    {
        Ok(StartDraft {
            reader: GroundReader::new(alloc, semantics)?,
            tree: None,
        })
    }

    /// The tree, if it is told.
    pub fn into_tree(self) -> Option<Term<Value>>
        ensures { result ≡ self.entry.tree }
    {
        let StartDraft { reader, tree } = self;
        drop(reader);
        tree
    }

    // The tree that an item writes.
    fn tree_of(&self, alloc: Global, raw: &RawTree) -> Result<Term<Value>, ItemError>
        ensures taken { IfOk result
            (λ tree. TakesItem start_loading self.now (Item.Start raw.now) (record { semantics = self.now.semantics; tree = Some tree })) }
        ensures fault { IfErr result (IsItemError start_loading self.now (Item.Start raw.now)) }
    {
        if self.tree.is_some() {
            return Err(ItemError::Fault(ItemFault::Shape));
        }
        if !self.reader.is_named(raw) {
            return Err(ItemError::Fault(ItemFault::Name));
        }
        if !self.reader.is_within(raw) {
            return Err(ItemError::Fault(ItemFault::Limit));
        }
        let sort = self.reader.state_sort();
        match self.reader.sorted_term(alloc, sort, raw)? {
            Some(tree) => Ok(tree),
            None => Err(ItemError::Fault(ItemFault::Sort)),
        }
    }

    // With the tree that an item writes.
    fn add_tree(self, alloc: Global, raw: &RawTree) -> Result<StartDraft<'a, S>, ItemError>
        ensures ok { IfOk result (TakesItem start_loading self.entry (Item.Start raw.now)) }
        ensures fault { IfErr result (IsItemError start_loading self.entry (Item.Start raw.now)) }
    {
        match self.tree_of(alloc, raw) {
            Ok(tree) => Ok(self.with_tree(tree)),
            Err(error) => {
                drop(self);
                Err(error)
            }
        }
    }

    // With this tree.
    fn with_tree(self, tree: Term<Value>) -> StartDraft<'a, S>
        ensures { result ≡ record { semantics = self.entry.semantics; tree = Some tree } }
    {
        let StartDraft {
            reader,
            tree: earlier,
        } = self;
        drop(earlier);
        StartDraft {
            reader,
            tree: Some(tree),
        }
    }
}

impl<'a, S: Side> Draft for StartDraft<'a, S> {
    ghost loading = { start_loading };

    fn add(self, alloc: Global, item: &Item) -> Result<StartDraft<'a, S>, ItemError> {
        match item {
            Item::Start(raw) => self.add_tree(alloc, raw),
            _ => {
                drop(self);
                Err(ItemError::Fault(ItemFault::Shape))
            }
        }
    }

    fn lacking(&self) -> Option<LoadFault> {
        match self.tree {
            Some(_) => None,
            None => Some(LoadFault::Shape { item: 1 }),
        }
    }
}
