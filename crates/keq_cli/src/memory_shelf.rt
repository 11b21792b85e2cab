// A shelf in memory.
ghost use Rattle.std.specs.Prelude.{refl, ◌≡◌, ◌≤◌, ◌↔◌, [], Some, IfOk, IsErrOf, IsTrue, vec_len};
ghost use Rattle.std.specs.Option.{option_map};
ghost use Rattle.std.specs.FinMap.{get};
ghost use Rattle.keq_cli.specs.Outside.{IsFetched, IsMissingIfSteady, HasFetchCause};
ghost use Rattle.keq_cli.specs.Memory.{file_map, files_of, failing_calls, never_fails, call_count, next_call, FailsNext};

use crate::{Fetch, Shelf};
use sexp_text::{Bytes, Name};
use sqlite_items::Items;
use std::alloc::Global;

/// A text and its name.
#[derive(Debug, Drop)]
pub struct NamedText {
    /// The name, of 1 to 64 bytes.
    pub name: Name,
    /// The bytes of the text.
    pub bytes: Bytes,
}

/// Named texts. Of two with one name the first counts.
pub type Files = Items<NamedText>;

/// Numbers of calls, counted from 1.
pub type CallList = Items<u64>;

/// Named texts in memory. It tells what it holds.
///
/// A fetch whose number is listed fails, and so does one of a name that is not there. Both are counted.
#[derive(Debug, Drop)]
pub struct MemoryShelf {
    files: Files,
    fails: CallList,
    calls: u64,
    faults: u64,
}

impl MemoryShelf {
    /// Holds the files. The fetches with the listed numbers fail; the first fetch has the number 1. It takes no memory.
    pub fn new(files: Files, fails: CallList) -> MemoryShelf
        ensures holds { ⟦<MemoryShelf as Shelf>⟧.holds result ≡ Some (file_map files) }
        ensures faults { ⟦<MemoryShelf as Shelf>⟧.faults result ≡ 0 }
        ensures steady { IsTrue (⟦<MemoryShelf as Shelf>⟧.steady result) ↔ (fails ≡ []) }
        ensures calls { ⟦<MemoryShelf as Shelf>⟧.calls result ≡ 0 }
        ensures failing { failing_calls result ≡ fails }
    {
        MemoryShelf {
            files,
            fails,
            calls: 0,
            faults: 0,
        }
    }
}

// The text of the first file of that name.
fn find_text<'a>(files: &'a [NamedText], name: &str) -> Option<&'a [u8]>
    ensures { option_map (λ text. text.now) result ≡ get (file_map files.now) name.now }
{
    for file in files {
        if name.as_bytes() == file.name.as_slice() {
            return Some(file.bytes.as_slice());
        }
    }
    None
}

impl Shelf for MemoryShelf {
    ghost holds = { λ s. Some (files_of s) };

    ghost faults = { λ s. s.faults };

    ghost steady = { never_fails };

    ghost calls = { call_count };

    ghost steady_tells = { λ s steady. refl };

    fn fetch(&mut self, alloc: Global, name: &str, most: usize) -> Result<Vec<u8>, Fetch>
        ensures holds { files_of self.new ≡ files_of self.old }
        ensures steady { never_fails self.new ≡ never_fails self.old }
        ensures bound { IfOk result (λ bytes. vec_len bytes ≤ most) }
        ensures bytes { IfOk result (λ bytes. IsFetched (files_of self.old) name.now most bytes.items) }
        ensures cause { HasFetchCause (⟦<MemoryShelf as Shelf>⟧.faults self.old) (⟦<MemoryShelf as Shelf>⟧.faults self.new) result }
        ensures missing { IsErrOf result Fetch.Failed → IsMissingIfSteady (never_fails self.old) (Some (files_of self.old)) name.now }

        // It fails exactly where the number of this fetch is listed, or the name is not held.
        ensures failed { IsErrOf result Fetch.Failed ↔ FailsNext self.old name.now }
        ensures counted { call_count self.new ≡ next_call self.old }
        ensures failing { failing_calls self.new ≡ failing_calls self.old }
    {
        self.calls = self.calls.saturating_add(1);
        let is_listed = self.fails.as_slice().contains(&self.calls);
        match find_text(self.files.as_slice(), name) {
            Some(text) if !is_listed => {
                let front = &text[..most.min(text.len())];
                Ok(Vec::from_slice(alloc, front)?)
            }
            _ => {
                self.faults = self.faults.saturating_add(1);
                Err(Fetch::Failed)
            }
        }
    }
}
