// Texts whose items act one after the other.
ghost use Rattle.std.specs.Prelude.{◌≡◌, IfOk, IfErr};
ghost use Rattle.sexp_text.specs.Printed.{without_spans};
ghost use Rattle.sexp_text.specs.declared.form.Form.{Form};
ghost use Rattle.rule_text.specs.Faults.{
  Loading,
  AreTaken,
  IsFaultyAt,
  TakesItem,
  TakesForm,
  IsItemError,
  IsFormError,
  IsWholeText,
  IsLoadError,
};

use crate::error::{ItemError, LoadError, LoadFault};
use crate::item::{FileKind, Item};
use crate::shape::read_item;
use sexp_text::{Form, read};
use std::alloc::Global;

/// What the items of a text make, one after the other.
pub trait Draft: Drop + Sized {
    /// How the items act.
    ghost loading: { Loading Self };

    /// With one item more. Else the answer is the item's first fault, or that there was no memory.
    fn add(self, alloc: Global, item: &Item) -> Result<Self, ItemError>
        ensures ok { IfOk result (TakesItem loading self item.now) }
        ensures fault { IfErr result (IsItemError loading self item.now) };

    /// What the whole lacks. It takes no memory.
    fn lacking(&self) -> Option<LoadFault>
        ensures { result ≡ loading.lacking self.now };
}

/// What the items of a text make, where `start` stands before the first one. Else the answer is the first fault of the text,
/// or that there was no memory.
pub fn load_text<D: Draft>(
    alloc: Global,
    kind: FileKind,
    start: D,
    bytes: &[u8],
) -> Result<D, LoadError>
    requires kind { kind ≡ D.loading.kind }
    ensures ok { IfOk result (IsWholeText D.loading start bytes.now) }
    ensures fault { IfErr result (IsLoadError D.loading start bytes.now) }
{
    let forms = read(alloc, bytes)?;
    let draft = take_forms(alloc, kind, start, forms.as_slice())?;
    match draft.lacking() {
        Some(fault) => Err(LoadError::Fault(fault)),
        None => Ok(draft),
    }
}

// What the forms make, each after those before it.
fn take_forms<D: Draft>(
    alloc: Global,
    kind: FileKind,
    start: D,
    forms: &[Form],
) -> Result<D, LoadError>
    requires kind { kind ≡ D.loading.kind }
    ensures ok { IfOk result (AreTaken D.loading start forms.now) }
    ensures fault { IfErr result (IsFaultyAt D.loading start forms.now) }
{
    let mut draft = start;
    for k in 0..forms.len() {
        match take(alloc, kind, draft, &forms[k]) {
            Ok(more) => {
                draft = more;
            }
            Err(error) => return Err(error.in_item(k + 1)),
        }
    }
    Ok(draft)
}

// What a form makes behind those before it.
fn take<D: Draft>(alloc: Global, kind: FileKind, draft: D, form: &Form) -> Result<D, ItemError>
    requires kind { kind ≡ D.loading.kind }
    ensures ok { IfOk result (TakesForm D.loading draft (without_spans form.now)) }
    ensures fault { IfErr result (IsFormError D.loading draft (without_spans form.now)) }
{
    let item = read_item(alloc, kind, form)?;
    let taken = draft.add(alloc, &item);
    drop(item);
    taken
}
