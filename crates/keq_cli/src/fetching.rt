// Fetches the files of a command.
ghost use Rattle.std.specs.Prelude.{◌≡◌, ◌≤◌, length, All, IsTrue, IfOk, OnOk, IfSome, IsErrOf};
ghost use Rattle.keq_cli.specs.Outside.{HasFetchCause, IsHeld, count_after};
ghost use Rattle.keq_cli.specs.Asked.{asks_of};
ghost use Rattle.keq_cli.specs.Texts.{AreFetched};

use crate::texts::Texts;
use crate::{Fetch, Shelf};
use sexp_text::Bytes;
use std::alloc::Global;

// A text of 1,048,576 bytes is read; one more byte shows that a text is longer.
const MOST: usize = 1_048_577;

/// Fetches the files with these names, in their order, each once, up to the first that fails.
pub fn fetch_texts<F: Shelf>(alloc: Global, names: &[String], shelf: &mut F) -> Result<Texts, Fetch>
    ensures texts { IfSome (F.holds shelf.old) (λ files. IfOk result (AreFetched files (asks_of names.now))) }
    ensures as_many { IfOk result (λ texts. length texts ≡ length names.now) }
    ensures fetches { F.calls shelf.new ≤ count_after (length names.now) (F.calls shelf.old) }
    ensures fetched { OnOk result (F.calls shelf.new ≡ count_after (length names.now) (F.calls shelf.old)) }
    ensures cause { HasFetchCause (F.faults shelf.old) (F.faults shelf.new) result }

    // A steady shelf that holds the files doesn't fail.
    ensures steady { IsTrue (F.steady shelf.old)
        → IfSome (F.holds shelf.old) (λ files. All (λ ask. IsHeld files ask.name) (asks_of names.now))
        → IsErrOf result Fetch.Failed → ⊥ }
{
    let mut texts = Texts::new(alloc);
    for name in names {
        let text = shelf.fetch(alloc, name.as_str(), MOST)?;
        texts.push(Bytes::from_vec(text))?;
    }
    Ok(texts)
}
