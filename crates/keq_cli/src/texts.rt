// The fetched fronts of texts.
ghost use Rattle.std.specs.Prelude.{◌≡◌};
ghost use Rattle.keq_cli.specs.Tasks.{text_at};

use sexp_text::Bytes;
use sqlite_items::Items;

/// The fetched fronts of a command's texts, in the order of their names.
pub type Texts = Items<Bytes>;

/// The front at a place. Where there is none, it is empty.
pub fn text_at(texts: &Texts, place: usize) -> &[u8]
    ensures { result.now ≡ text_at texts.now place }
{
    match texts.get(place) {
        Some(text) => text.as_slice(),
        None => &[],
    }
}
