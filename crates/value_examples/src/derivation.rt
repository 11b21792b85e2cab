//! Calls of `Derivation::derive`, of `refute_check::check`, and of `are_below` as `(below COUNT (CLAUSE ..))`. A step is the number of a clause to start with and links, each a
//! literal to resolve on and the number of a clause, as `(START (LITERAL CLAUSE) ..)`.
ghost use Rattle.std.specs.Prelude.{◌<◌, IfOk, length};

use clause_text::{clause_list, clauses, lit};
use example_cases::{Failed, list, small};
use refute_check::{
    Checked, Clause, Clauses, Derivation, Link, Lit, Step, Steps, are_below, check,
};
use sexp_text::Form;
use shown_terms::Shown;
use sqlite_items::Items;
use std::alloc::{AllocError, Global};

/// What the call with this name answers; None where there is no such call.
pub(crate) fn answer(
    alloc: Global,
    name: &[u8],
    arguments: &[Form],
) -> Result<Option<String>, Failed> {
    let answer = match arguments {
        [base, step] if name == b"derive".as_slice() => derived(alloc, base, step),
        [base, steps @ ..] if name == b"check".as_slice() => checked(alloc, base, steps),
        [count, clause] if name == b"below".as_slice() => below(alloc, count, clause),
        _ => return Ok(None),
    };
    Ok(Some(answer?))
}

// The literals of the clause that a step derives.
fn derived(alloc: Global, base: &Form, step: &Form) -> Result<String, Failed> {
    let mut derivation = Derivation::new(alloc, clauses(alloc, list(base)?)?)?;
    let text = derived_in(alloc, &mut derivation, step);
    drop(derivation);
    text
}

fn derived_in(alloc: Global, derivation: &mut Derivation, step: &Form) -> Result<String, Failed> {
    let step = step_of(alloc, step)?;
    let id = derive(derivation, &step);
    drop(step);
    written(alloc, derivation.clause(id?))
}

fn derive(derivation: &mut Derivation, step: &Step) -> Result<usize, Failed>
    ensures { IfOk result (λ id. id < length derivation.new.clauses) }
{
    let count = derivation.len();
    if step.start >= count || !step.chain.as_slice().iter().all(|link| link.clause < count) {
        return Err(Failed::NoCall);
    }
    Ok(derivation.derive(step.start, step.chain.as_slice())?)
}

// What steps over clauses come to.
fn checked(alloc: Global, base: &Form, forms: &[Form]) -> Result<String, Failed> {
    let clauses = clauses(alloc, list(base)?)?;
    let text = checked_over(alloc, &clauses, forms);
    drop(clauses);
    text
}

fn checked_over(alloc: Global, clauses: &Clauses, forms: &[Form]) -> Result<String, Failed> {
    let steps = steps_of(alloc, forms)?;
    let found = check(alloc, clauses, &steps);
    drop(steps);
    Ok(in_words(alloc, found?)?)
}

fn steps_of(alloc: Global, forms: &[Form]) -> Result<Steps, Failed> {
    let mut steps = Items::new(alloc);
    for form in forms {
        steps.push(step_of(alloc, form)?)?;
    }
    Ok(steps)
}

fn in_words(alloc: Global, checked: Checked) -> Result<String, AllocError> {
    match checked {
        Checked::Refuted => String::from_str(alloc, "refuted"),
        Checked::NoEmpty => String::from_str(alloc, "no empty clause"),
        Checked::BadId(step) => format!(in alloc; "step {step} is bad"),
    }
}

// Whether the variables of clauses are below a number.
fn below(alloc: Global, count: &Form, clauses: &Form) -> Result<String, Failed> {
    let clauses = clause_list(alloc, list(clauses)?)?;
    let is_below = match small(count) {
        Ok(count) => are_below(count, clauses.as_slice()),
        Err(failed) => {
            drop(clauses);
            return Err(failed);
        }
    };
    drop(clauses);
    Ok(String::from_str(alloc, if is_below { "true" } else { "false" })?)
}

fn step_of(alloc: Global, form: &Form) -> Result<Step, Failed> {
    let [start, links @ ..] = list(form)? else {
        return Err(Failed::NoCall);
    };
    let mut chain = Items::new(alloc);
    for link in links {
        chain.push(link_of(link)?)?;
    }
    Ok(Step {
        start: small(start)?,
        chain,
    })
}

fn link_of(form: &Form) -> Result<Link, Failed> {
    match list(form)? {
        [first, second] => Ok(Link {
            lit: lit(first)?,
            clause: small(second)?,
        }),
        _ => Err(Failed::NoCall),
    }
}

// The literals, in their order, as they are read.
fn written(alloc: Global, clause: &Clause) -> Result<String, Failed> {
    let mut out = Shown::new(alloc);
    out.put("(")?;
    for (place, lit) in clause.as_slice().iter().enumerate() {
        out.put(if place == 0 { "" } else { " " })?;
        put_lit(&mut out, lit)?;
    }
    out.put(")")?;
    Ok(out.into_text())
}

fn put_lit(out: &mut Shown, lit: &Lit) -> Result<(), AllocError> {
    if lit.positive {
        return out.place("", lit.var);
    }
    out.place("(not ", lit.var)?;
    out.put(")")
}
