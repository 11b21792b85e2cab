// The text of a form.
ghost use Rattle.std.specs.Prelude.{◌≡◌, ◌++◌, map, OnOk, IfOk};
ghost use Rattle.sexp_text.specs.Print.{text_of, joined};

use crate::form::{Bytes, Form, FormKind};
use no_memory::NoMemory;
use sqlite_items::Items;
use std::alloc::Global;

/// The text of a form: a word as its bytes, a number in decimal without leading zeros, and a list as its forms between
/// `(` and `)` with one space from each to the next. The only error is want of memory.
pub fn print(alloc: Global, form: &Form) -> Result<Bytes, NoMemory>
    ensures { IfOk result (λ text. text ≡ text_of form.now) }
{
    let mut text = Vec::new(alloc);
    write_form(alloc, &mut text, form)?;
    Ok(Items::from_vec(text))
}

#[cycle(writing)]
fn write_form(alloc: Global, text: &mut Vec<u8>, form: &Form) -> Result<(), NoMemory>
    ensures { OnOk result (text.new.items ≡ text.old.items ++ text_of form.now) }
{
    match &form.kind {
        FormKind::Word(name) => text.extend_from_slice(name.as_slice())?,
        FormKind::Number(number) => {
            let digits = number.to_string(alloc)?;
            text.extend_from_slice(digits.as_bytes())?;
        }
        FormKind::List(forms) => {
            text.push(b'(')?;
            write_forms(alloc, text, forms.as_slice())?;
            text.push(b')')?;
        }
    }
    Ok(())
}

#[cycle(writing)]
fn write_forms(alloc: Global, text: &mut Vec<u8>, forms: &[Form]) -> Result<(), NoMemory>
    ensures { OnOk result (text.new.items ≡ text.old.items ++ joined 32 (map text_of forms.now)) }
{
    let [first, rest @ ..] = forms else {
        return Ok(());
    };
    write_form(alloc, text, first)?;
    for form in rest {
        text.push(b' ')?;
        write_form(alloc, text, form)?;
    }
    Ok(())
}
