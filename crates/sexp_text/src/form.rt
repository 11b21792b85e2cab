// Forms, their names and their lists.
ghost use Rattle.std.specs.Prelude.{◌≡◌, ◌≤◌, ◌↔◌, length, IfOk, IsTrue};

use no_memory::NoMemory;
use sqlite_items::Items;
use std::alloc::Global;
use std::marker::Model;

/// Forms in their order. Contracts see a list.
pub type Forms = Items<Form>;

/// Bytes in their order. Contracts see a list.
pub type Bytes = Items<u8>;

/// A name: 1 to 64 bytes of any value. Contracts see the list of its bytes, and [`Name::as_slice`] says how many they
/// are.
#[derive(Debug, Drop)]
pub struct Name {
    bytes: Bytes,
}

impl Model for Name {
    ghost use Rattle.std.specs.Prelude.{List, ℕ, ◌≤◌, length};

    ghost Value = { List ℕ };

    ghost view = { λ name. name.bytes };

    ghost invariant = { λ name. (1 ≤ length name.bytes) × (length name.bytes ≤ 64) };
}

impl Name {
    /// The name with these bytes. The only error is want of memory.
    pub fn new(alloc: Global, bytes: &[u8]) -> Result<Name, NoMemory>
        requires some { 1 ≤ length bytes.now }
        requires short { length bytes.now ≤ 64 }
        ensures { IfOk result (λ name. name ≡ bytes.now) }
    {
        let bytes = Items::from_slice(alloc, bytes)?;
        Ok(Name { bytes })
    }

    /// The bytes of the name, of which there are 1 to 64.
    pub fn as_slice(&self) -> &[u8]
        ensures bytes { result.now ≡ self.now }
        ensures some { 1 ≤ length self.now }
        ensures short { length self.now ≤ 64 }
    {
        self.bytes.as_slice()
    }

    /// Another name with the same bytes. The only error is want of memory.
    pub fn copy(&self, alloc: Global) -> Result<Name, NoMemory>
        ensures { IfOk result (λ name. name ≡ self.now) }
    {
        Name::new(alloc, self.as_slice())
    }

    /// Whether the two names have the same bytes.
    pub fn same(&self, other: &Name) -> bool
        ensures { IsTrue result ↔ (self.now ≡ other.now) }
    {
        self.as_slice() == other.as_slice()
    }
}

/// A form, with its span in the text that it was read from.
///
/// Offsets count bytes from 0. The span is half open: `start` is the offset of the form's first byte, and `end` the
/// offset behind its last. A list begins with its `(` and ends with its `)`.
#[cycle(form)]
#[derive(Drop)]
pub struct Form {
    /// What the form is.
    pub kind: FormKind,
    /// The offset of the first byte.
    pub start: usize,
    /// The offset behind the last byte.
    pub end: usize,
}

/// What a form is.
#[cycle(form)]
#[derive(Drop)]
pub enum FormKind {
    /// A word. One that was read consists of atom bytes and doesn't begin with a digit.
    Word(Name),
    /// A number below 2^64.
    Number(u64),
    /// The forms between a `(` and its `)`.
    List(Forms),
}
