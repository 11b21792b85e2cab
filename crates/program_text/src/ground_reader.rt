// The ground terms that a text writes for a semantics.
ghost use Rattle.std.specs.Prelude.{◌≡◌, ◌↔◌, [], option_map, IsTrue, IfOk};
ghost use Rattle.sort_term.specs.declared.term.Sort.TheVariants.{Own};
ghost use Rattle.name_resolution.specs.Known.{vocabulary_in, table_of};
ghost use Rattle.name_resolution.specs.Named.{is_named_tree};
ghost use Rattle.name_resolution.specs.Within.{IsWithinTree};
ghost use Rattle.program_text.specs.Grounds.{IsSortedTerm};

use data_value::Value;
use name_resolution::{NameTable, Vocabulary, is_named_tree, is_within_tree, read_tree};
use no_memory::NoMemory;
use rule_text::RawTree;
use sexp_text::Name;
use sort_term::{Semantics, Side, Sort, Table, TableId, Term, is_tree_of};
use std::alloc::Global;
use std::marker::Model;

/// Reads the ground terms of a text for a semantics. Contracts see the semantics.
#[derive(Drop)]
pub struct GroundReader<'a, S: Side> {
    semantics: &'a Semantics<S>,
    vocabulary: Vocabulary<'a>,
    no_variables: NameTable,
}

impl<'a, S: Side> Model for GroundReader<'a, S> {
    ghost use Rattle.std.specs.Prelude.{◌≡◌, []};
    ghost use Rattle.sort_term.specs.System.{System, system_code};
    ghost use Rattle.name_resolution.specs.Known.{vocabulary_in};

    ghost Value = { System };

    ghost coded = { system_code };

    ghost view = { λ r. r.semantics.now };

    ghost invariant = { λ r. (r.vocabulary ≡ vocabulary_in r.semantics.now) × (r.no_variables ≡ []) };
}

impl<'a, S: Side> GroundReader<'a, S> {
    /// Over what a semantics declares.
    pub fn new(alloc: Global, semantics: &'a Semantics<S>) -> Result<GroundReader<'a, S>, NoMemory>
        ensures { IfOk result (λ r. r ≡ semantics.now) }
    {
        Ok(GroundReader {
            semantics,
            vocabulary: Vocabulary::of(alloc, semantics)?,
            no_variables: NameTable::new(alloc),
        })
    }

    /// The sort of the states.
    pub fn state_sort(&self) -> Sort
        ensures { result ≡ Own self.now.config }
    {
        Sort::Own(self.semantics.config())
    }

    /// The table with a name, with its number. It takes no memory.
    pub fn table(&self, name: &Name) -> Option<(TableId, &Table)>
        ensures { option_map (λ found. (found.0, found.1.now)) result ≡ table_of (vocabulary_in self.now) name.now }
    {
        self.vocabulary.known().table(name)
    }

    /// Whether a term names only constructors that are known. It takes no memory.
    pub fn is_named(&self, raw: &RawTree) -> bool
        ensures { result ≡ is_named_tree (vocabulary_in self.now) [] raw.now }
    {
        is_named_tree(&self.vocabulary.known(), &self.no_variables, raw)
    }

    /// Whether a term keeps the limits. It takes no memory.
    pub fn is_within(&self, raw: &RawTree) -> bool
        ensures { IsTrue result ↔ IsWithinTree (vocabulary_in self.now) raw.now }
    {
        is_within_tree(&self.vocabulary.known(), raw)
    }

    /// The ground term that is written, where it is one and of this sort.
    pub fn sorted_term(
        &self,
        alloc: Global,
        sort: Sort,
        raw: &RawTree,
    ) -> Result<Option<Term<Value>>, NoMemory>
        ensures { IfOk result (IsSortedTerm self.now sort raw.now) }
    {
        let known = self.vocabulary.known();
        let Some(term) = read_tree(alloc, &known, &self.no_variables, raw)? else {
            return Ok(None);
        };
        if is_tree_of(self.semantics.cons().as_slice(), sort, &term) {
            Ok(Some(term))
        } else {
            Ok(None)
        }
    }
}
