// The keys of the rows of a table.
ghost use Rattle.std.specs.Prelude.{◌≡◌, ◌==◌, false, [], ◌∷◌, ◌++◌, IfOk};
ghost use Rattle.std.specs.List.{list_any};

use indexmap::IndexSet;
use no_memory::NoMemory;
use std::alloc::Global;
use std::marker::Model;

/// The keys of the rows of a table. Contracts see their list, in the order of the text.
#[derive(Drop)]
pub struct KeyTable {
    numbers: IndexSet<u64>,
}

impl Model for KeyTable {
    ghost use Rattle.std.specs.Prelude.{ℕ, List};

    ghost Value = { List ℕ };

    ghost view = { λ t. t.numbers.keys };
}

impl KeyTable {
    /// No keys.
    pub fn new(alloc: Global) -> KeyTable
        ensures { result ≡ [] }
    {
        KeyTable {
            numbers: IndexSet::new(alloc),
        }
    }

    /// Whether a row has this key. It takes no memory.
    pub fn has(&self, key: u64) -> bool
        ensures { result ≡ list_any (λ k. key == k) self.now }
    {
        self.numbers.contains(&key)
    }

    /// One key more, which none of the rows has.
    pub fn push(&mut self, key: u64) -> Result<(), NoMemory>
        requires { list_any (λ k. key == k) self.old ≡ false }
        ensures { IfOk result (λ _. self.new ≡ self.old ++ key ∷ []) }
    {
        self.numbers.insert(key)?;
        Ok(())
    }
}
