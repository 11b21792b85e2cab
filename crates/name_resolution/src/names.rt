// Names by number.
ghost use Rattle.std.specs.Prelude.{◌≡◌, ◌↔◌, [], ◌∷◌, ◌++◌, if◌then◌else◌, IsTrue, IfOk, OnErr};
ghost use Rattle.name_resolution.specs.Names.{place_of, IsNew};

use indexmap::IndexSet;
use no_memory::NoMemory;
use sexp_text::Name;
use sort_term::Named;
use sqlite_items::Items;
use std::alloc::Global;
use std::marker::Model;

/// Names of one kind, numbered from 0 in the order in which they are declared. Contracts see their list.
#[derive(Drop)]
pub struct NameTable {
    words: IndexSet<Vec<u8>>,
}

impl Model for NameTable {
    ghost use Rattle.std.specs.Prelude.{ℕ, List, map};

    ghost Value = { List (List ℕ) };

    ghost view = { λ t. map (λ v. v.items) t.words.keys };
}

impl NameTable {
    /// No names.
    pub fn new(alloc: Global) -> NameTable
        ensures { result ≡ [] }
    {
        NameTable {
            words: IndexSet::new(alloc),
        }
    }

    /// The number of a name, if it is declared. It takes no memory.
    pub fn place(&self, name: &Name) -> Option<usize>
        ensures { result ≡ place_of name.now self.now }
    {
        self.words.get_index_of(name.as_slice())
    }

    /// Whether a name is not declared. It takes no memory.
    pub fn is_new(&self, name: &Name) -> bool
        ensures { IsTrue result ↔ IsNew name.now self.now }
    {
        self.place(name).is_none()
    }

    /// Declares a name, and tells whether it is new; one that is declared already stays as it is. After an error the names are
    /// those before.
    pub fn declare(&mut self, alloc: Global, name: &Name) -> Result<bool, NoMemory>
        ensures told { IfOk result (λ is_new. IsTrue is_new ↔ IsNew name.now self.old) }
        ensures added { IfOk result (λ is_new. self.new ≡ (if is_new then self.old ++ name.now ∷ [] else self.old)) }
        ensures kept { OnErr result (self.new ≡ self.old) }
    {
        self.declare_word(alloc, name.as_slice())
    }

    /// The same of a name as its bytes.
    pub(crate) fn declare_word(&mut self, alloc: Global, word: &[u8]) -> Result<bool, NoMemory>
        ensures told { IfOk result (λ is_new. IsTrue is_new ↔ IsNew word.now self.old) }
        ensures added { IfOk result (λ is_new. self.new ≡ (if is_new then self.old ++ word.now ∷ [] else self.old)) }
        ensures kept { OnErr result (self.new ≡ self.old) }
    {
        let bytes = Vec::from_slice(alloc, word)?;
        let (_place, is_new) = self.words.insert_full(bytes)?;
        Ok(is_new)
    }

    /// These names and those things, with one more thing, whose name is new. All are dropped where there is no memory.
    pub fn with_one<T: Named + Drop>(
        self,
        alloc: Global,
        list: Items<T>,
        item: T,
    ) -> Result<(NameTable, Items<T>), NoMemory>
        requires new { IsNew (T.name_of item) self }
        ensures { IfOk result (λ p. (p.0 ≡ self ++ T.name_of item ∷ []) × (p.1 ≡ list ++ item ∷ [])) }
    {
        let (mut names, mut list) = (self, list);
        names.declare_word(alloc, item.name())?;
        list.push(item)?;
        Ok((names, list))
    }
}
