//! Clauses from forms. A clause is a list of literals, each the number of a variable, or `(not NUMBER)`.
#![tactic(auto)]

use example_cases::{Failed, is_word, list, small};
use refute_check::{Clause, ClauseList, Clauses, Lit, are_below};
use sexp_text::{Form, FormKind};
use sqlite_items::Items;
use std::alloc::{AllocError, Global};

/// The clauses that the forms are, over no more variables than they have.
pub fn clauses(alloc: Global, forms: &[Form]) -> Result<Clauses, Failed> {
    let list = clause_list(alloc, forms)?;
    let vars = variable_count(&list);
    clauses_over(vars, list)
}

/// The clauses over so many variables.
pub fn clauses_over(vars: usize, list: ClauseList) -> Result<Clauses, Failed> {
    if !are_below(vars, list.as_slice()) {
        return Err(Failed::NoCall);
    }
    Ok(Clauses { vars, list })
}

/// How many variables and clauses there are.
pub fn size(alloc: Global, clauses: &Clauses) -> Result<String, AllocError> {
    let (vars, count) = (clauses.vars, clauses.list.len());
    format!(in alloc; "{vars} variables, {count} clauses")
}

/// The list of clauses that the forms are.
pub fn clause_list(alloc: Global, forms: &[Form]) -> Result<ClauseList, Failed> {
    let mut list: ClauseList = Items::new(alloc);
    for form in forms {
        list.push(clause(alloc, form)?)?;
    }
    Ok(list)
}

fn clause(alloc: Global, form: &Form) -> Result<Clause, Failed> {
    let mut lits = Vec::new(alloc);
    for part in list(form)? {
        lits.push(lit(part)?)?;
    }
    Ok(Clause::from_slice(alloc, lits.as_slice())?)
}

/// A literal.
pub fn lit(form: &Form) -> Result<Lit, Failed> {
    match &form.kind {
        FormKind::List(parts) => Ok(negated(parts.as_slice())?.flip()),
        _ => variable(form),
    }
}

// The literal behind `not`.
fn negated(parts: &[Form]) -> Result<Lit, Failed> {
    match parts {
        [head, part] if is_word(head, b"not") => variable(part),
        _ => Err(Failed::NoCall),
    }
}

fn variable(form: &Form) -> Result<Lit, Failed> {
    Ok(Lit {
        var: small(form)?,
        positive: true,
    })
}

// The least number that all variables are below.
fn variable_count(list: &ClauseList) -> usize {
    let mut count: usize = 0;
    for clause in list.as_slice() {
        for lit in clause.as_slice() {
            count = count.max(lit.var.saturating_add(1));
        }
    }
    count
}

/// The forms of clauses, as they are read.
pub fn text(alloc: Global, clauses: &Clauses) -> Result<String, AllocError> {
    let mut text = String::new(alloc);
    for (place, clause) in clauses.list.as_slice().iter().enumerate() {
        text.push_str(if place == 0 { "(" } else { " (" })?;
        put_lits(alloc, &mut text, clause.as_slice())?;
        text.push_str(")")?;
    }
    Ok(text)
}

fn put_lits(alloc: Global, text: &mut String, lits: &[Lit]) -> Result<(), AllocError> {
    for (place, lit) in lits.iter().enumerate() {
        text.push_str(if place == 0 { "" } else { " " })?;
        let var = lit.var;
        let lit = if lit.positive {
            format!(in alloc; "{var}")?
        } else {
            format!(in alloc; "(not {var})")?
        };
        text.push_str(lit.as_str())?;
    }
    Ok(())
}
