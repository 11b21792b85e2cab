//! Whether formulas are ever true.
use crate::conditions::condition;
use crate::valuations::put_valuation;
use data_value::Symbolic;
use example_cases::Failed;
use formula_text::{Names, formula};
use prover::{Answer, decide};
use sexp_text::Form;
use shown_terms::Shown;
use std::alloc::Global;

/// What is decided of a formula over an empty domain with some variables and its own: `never`, or `holds` and the values of all
/// variables.
pub fn decided<D: Symbolic>(
    alloc: Global,
    d: &mut D,
    variables: &[Form],
    form: &Form,
) -> Result<String, Failed> {
    let mut names = Names::new(alloc);
    for variable in variables {
        formula(alloc, d, &mut names, variable)?;
    }
    let node = condition(alloc, d, &mut names, form)?;
    let mut out = Shown::new(alloc);
    match decide(alloc, d, &node)? {
        Answer::Never => out.put("never")?,
        Answer::Holds(valuation) => {
            out.put("holds")?;
            put_valuation(&mut out, &names, valuation.as_slice())?;
        }
    }
    Ok(out.into_text())
}
