//! Conditions from forms.
ghost use Rattle.std.specs.Prelude.{IfOk};
ghost use Rattle.data_value.specs.Truth.{IsCondition};

use data_value::{DataSort, Symbolic};
use example_cases::Failed;
use formula_text::{Names, formula};
use sexp_text::Form;
use std::alloc::Global;

/// The condition that a form is.
pub(crate) fn condition<D: Symbolic>(
    alloc: Global,
    d: &mut D,
    names: &mut Names,
    form: &Form,
) -> Result<D::Node, Failed>
    ensures { IfOk result (λ n. IsCondition (D.look d.new n)) }
{
    let node = formula(alloc, d, names, form)?;
    match d.sort(&node) {
        DataSort::Bool => Ok(node),
        _ => Err(Failed::NoCall),
    }
}
