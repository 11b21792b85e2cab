// Words, numbers and lists among forms.
ghost use Rattle.std.specs.Prelude.{
  ◌≡◌,
  ◌≢◌,
  ◌↔◌,
  ℕ,
  List,
  [],
  ◌∷◌,
  map,
  IsTrue,
  IsNone,
  IfOk,
  IfSome,
};
ghost use Rattle.sexp_text.specs.Printed.{without_spans};
ghost use Rattle.sexp_text.specs.declared.form.Form.{Form};
ghost use Rattle.sort_term.specs.Names.{is_reserved_word};
ghost use Rattle.rule_text.specs.Plain.{plain_word, plain_number, plain_list};
ghost use Rattle.rule_text.specs.Refused.{RefusedOnlyIfNone};

use crate::item::Numbers;
use crate::refused::ShapeError;
use sexp_text::{Form, FormKind, Name};
use sqlite_items::Items;
use std::alloc::Global;

/// Whether a word is reserved.
pub fn is_reserved(name: &Name) -> bool
    ensures { result ≡ is_reserved_word name.now }
{
    sort_term::is_reserved(name.as_slice())
}

/// A copy of a word.
pub fn word(alloc: Global, form: &Form) -> Result<Name, ShapeError>
    ensures ok { IfOk result (λ name. without_spans form.now ≡ plain_word name) }
    ensures refused { RefusedOnlyIfNone result (λ name. without_spans form.now ≡ plain_word name) }
{
    match &form.kind {
        FormKind::Word(name) => Ok(name.copy(alloc)?),
        _ => Err(ShapeError::NoItem),
    }
}

/// A number.
pub fn number(form: &Form) -> Option<u64>
    ensures number { IfSome result (λ n. without_spans form.now ≡ plain_number n) }
    ensures other { IsNone result → (n : ℕ) → without_spans form.now ≢ plain_number n }
{
    match &form.kind {
        FormKind::Number(number) => Some(*number),
        _ => None,
    }
}

/// The forms of a list.
pub fn list(form: &Form) -> Option<&[Form]>
    ensures list { IfSome result
        (λ forms. without_spans form.now ≡ plain_list (map without_spans forms.now)) }
    ensures other { IsNone result →
        (forms : List Form) → without_spans form.now ≢ plain_list forms }
{
    match &form.kind {
        FormKind::List(forms) => Some(forms.as_slice()),
        _ => None,
    }
}

/// Whether a form is this word.
pub fn is_word(form: &Form, word: &str) -> bool
    ensures { IsTrue result ↔ (without_spans form.now ≡ plain_word word.now) }
{
    match &form.kind {
        FormKind::Word(name) => name.as_slice() == word.as_bytes(),
        _ => false,
    }
}

/// The forms behind this word, with which a list begins.
pub fn behind<'a>(form: &'a Form, word: &str) -> Option<&'a [Form]>
    ensures some { IfSome result
        (λ rest. without_spans form.now ≡ plain_list (plain_word word.now ∷ map without_spans rest.now)) }
    ensures none { IsNone result →
        (rest : List Form) → without_spans form.now ≢ plain_list (plain_word word.now ∷ rest) }
{
    let forms = list(form)?;
    let [front, rest @ ..] = forms else {
        return None;
    };
    if !is_word(front, word) {
        return None;
    }
    Some(rest)
}

/// The one number that the forms are.
pub fn one_number(forms: &[Form]) -> Option<u64>
    ensures some { IfSome result (λ n. map without_spans forms.now ≡ plain_number n ∷ []) }
    ensures none { IsNone result → (n : ℕ) → map without_spans forms.now ≢ plain_number n ∷ [] }
{
    let [form] = forms else {
        return None;
    };
    number(form)
}

/// The two numbers that the forms are.
pub fn number_pair(forms: &[Form]) -> Option<(u64, u64)>
    ensures some { IfSome result
        (λ pair. map without_spans forms.now ≡ plain_number pair.0 ∷ plain_number pair.1 ∷ []) }
    ensures none { IsNone result →
        (m n : ℕ) → map without_spans forms.now ≢ plain_number m ∷ plain_number n ∷ [] }
{
    let [first, second] = forms else {
        return None;
    };
    Some((number(first)?, number(second)?))
}

/// The numbers that the forms are.
pub fn numbers(alloc: Global, forms: &[Form]) -> Result<Numbers, ShapeError>
    ensures ok { IfOk result (λ numbers. map without_spans forms.now ≡ map plain_number numbers) }
    ensures refused { RefusedOnlyIfNone result (λ numbers. map without_spans forms.now ≡ map plain_number numbers) }
{
    let mut numbers = Items::new(alloc);
    for form in forms {
        let Some(number) = number(form) else {
            return Err(ShapeError::NoItem);
        };
        numbers.push(number)?;
    }
    Ok(numbers)
}
