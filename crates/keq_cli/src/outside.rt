// What the program reads from and writes to.
ghost use Rattle.std.specs.Prelude.{◌≡◌, ◌≤◌, [], List, ℕ, Option, Bool, IfOk, OnOk, IfSome, IsOk, IsSome, IsErrOf, IsTrue, vec_len};
ghost use Rattle.keq_cli.specs.declared.outside.Fetch.TheVariants.{NoMemory as OutOfMemory};
ghost use Rattle.keq_cli.specs.Outside.{FileMap, IsFetched, IsMissingIfSteady, count_after};
ghost use Rattle.keq_cli.specs.Outside.{HasFetchCause, HasPutCause, IsTaken, IsFrontTaken};

use no_memory::NoMemory;
use std::alloc::{AllocError, AllocFailed, Global};
use thiserror::Error;

/// Why a text was not fetched.
#[derive(Clone, Copy, Debug, PartialEq, Eq, Error)]
pub enum Fetch {
    /// The shelf failed, and counted it.
    #[error("the text could not be fetched")]
    Failed,
    /// There was no memory for the text.
    #[error("there was no memory for the text")]
    NoMemory,
}

impl From<NoMemory> for Fetch {
    ghost from_gives = { λ _ e. e ≡ OutOfMemory };

    fn from(_: NoMemory) -> Self {
        Fetch::NoMemory
    }
}

impl From<AllocError> for Fetch {
    ghost from_gives = { λ _ e. e ≡ OutOfMemory };

    fn from(_: AllocError) -> Self {
        Fetch::NoMemory
    }
}

impl<T: Drop> From<AllocFailed<T>> for Fetch {
    ghost from_gives = { λ _ e. e ≡ OutOfMemory };

    fn from(_: AllocFailed<T>) -> Self {
        Fetch::NoMemory
    }
}

/// A piece was not put, or not whole. The sink counted it.
#[derive(Clone, Copy, Debug, PartialEq, Eq, Error)]
#[error("the piece could not be put whole")]
pub struct Failed;

/// Named texts.
///
/// A count **rose** in a call where it is greater than before, or where it stood at 2^64 - 1, the last value of a
/// counter, before the call.
pub trait Shelf {
    /// The bytes of each name, where the shelf tells them.
    ghost holds: { Self → Option FileMap };

    /// How many fetches have failed, up to the last value of a counter. It never falls.
    ghost faults: { Self → ℕ };

    /// How many fetches there were, up to the last value of a counter.
    ghost calls: { Self → ℕ };

    /// Whether a name that is held is always fetched, but for want of memory.
    ghost steady: { Self → Bool };

    /// The first `most` bytes of the text of that name, or all where it has fewer.
    fn fetch(&mut self, alloc: Global, name: &str, most: usize) -> Result<Vec<u8>, Fetch>
        // What the shelf holds, and whether it is steady, stay as they were.
        ensures holds { holds self.new ≡ holds self.old }
        ensures steady { steady self.new ≡ steady self.old }

        // Each fetch is counted, whatever it answers, up to the last value of a counter.
        ensures counted { calls self.new ≡ count_after 1 (calls self.old) }

        // On Ok there are at most `most` bytes. Where the content is told, the name is held, and they are its front.
        ensures bound { IfOk result (λ bytes. vec_len bytes ≤ most) }
        ensures bytes { IfOk result (λ bytes. IfSome (holds self.old) (λ files. IsFetched files name.now most bytes.items)) }

        // Failed comes only where the count of faults rose. On Ok and on NoMemory it is as before.
        ensures cause { HasFetchCause (faults self.old) (faults self.new) result }

        // A steady shelf fails only for a name that is not held.
        ensures missing { IsErrOf result Fetch.Failed → IsMissingIfSteady (steady self.old) (holds self.old) name.now };

    /// A steady shelf tells what it holds.
    ghost steady_tells: { (shelf : Self) → IsTrue (steady shelf) → IsSome (holds shelf) };
}

/// What takes the report.
pub trait Sink {
    /// The bytes so far, where the sink tells them.
    ghost taken: { Self → Option (List ℕ) };

    /// How many puts have failed, up to the last value of a counter. It never falls.
    ghost faults: { Self → ℕ };

    /// Appends the piece. Where that fails, a front of it was appended.
    fn put(&mut self, piece: &[u8]) -> Result<(), Failed>
        ensures whole { OnOk result (IsTaken (taken self.old) piece.now (taken self.new)) }
        ensures front { IsFrontTaken (taken self.old) piece.now (taken self.new) }

        // An empty piece never fails.
        ensures empty { piece.now ≡ [] → IsOk result }

        // Failed comes only where the count of faults rose. On Ok it is as before.
        ensures cause { HasPutCause (faults self.old) (faults self.new) result };
}
