//! Calls of the tests and readings of names, over what a semantics declares, on a cut: its variables, its pattern and its conditions.
use data_value::Value;
use example_cases::Failed;
use name_resolution::{
    Known, NameTable, Vocabulary, are_sorts_named, are_vars_within, is_named_tree, is_within_tree,
    read_expressions, read_tree, variable_names, variables,
};
use no_memory::NoMemory;
use rule_text::{Item, RawTree, RawVar};
use shown_terms::{Shown, expression, pattern, term, vars};
use sort_term::{Pattern, RuleExpr, Semantics, Side, Term};
use std::alloc::Global;

/// What the tests of a cut tell, and where it is read also what its pattern and each condition are read as.
pub(crate) fn resolved<S: Side>(
    alloc: Global,
    semantics: &Semantics<S>,
    items: &[Item],
    is_read: bool,
) -> Result<String, Failed> {
    let [
        Item::Cut {
            vars,
            pattern,
            whens,
            ..
        },
    ] = items
    else {
        return Err(Failed::NoCall);
    };
    let (raws, whens) = (vars.as_slice(), whens.as_slice());
    let vocabulary = Vocabulary::of(alloc, semantics)?;
    let known = vocabulary.known();
    let names = variable_names(alloc, raws)?;
    let mut out = Shown::new(alloc);
    tests(alloc, &mut out, &known, raws, &names, pattern, whens)?;
    if is_read {
        if let Some(names) = &names {
            readings(alloc, &mut out, &known, names, pattern, whens)?;
        }
    }
    Ok(out.into_text())
}

// Whether the names may be declared, the sorts are known and of lawful widths; the variables; and of each tree whether it names
// only what is known, and whether it keeps the limits.
fn tests(
    alloc: Global,
    out: &mut Shown,
    known: &Known<'_>,
    raws: &[RawVar],
    names: &Option<NameTable>,
    pattern: &RawTree,
    whens: &[RawTree],
) -> Result<(), NoMemory> {
    out.truth("names ", names.is_some())?;
    out.truth("; sorts ", are_sorts_named(known, raws))?;
    out.truth("; widths ", are_vars_within(raws))?;
    out.put("; ")?;
    match variables(alloc, known, raws)? {
        Some(list) => vars(out, list.as_slice())?,
        None => out.put("no vars")?,
    }
    if let Some(names) = names {
        out.truth("; known ", is_named_tree(known, names, pattern))?;
        for condition in whens {
            out.truth(" ", is_named_tree(known, names, condition))?;
        }
    }
    out.truth("; within ", is_within_tree(known, pattern))?;
    for condition in whens {
        out.truth(" ", is_within_tree(known, condition))?;
    }
    Ok(())
}

// What the pattern is read as, as a pattern and as a ground term without variables, and each condition; and how many conditions
// are read together.
fn readings(
    alloc: Global,
    out: &mut Shown,
    known: &Known<'_>,
    names: &NameTable,
    tree: &RawTree,
    whens: &[RawTree],
) -> Result<(), NoMemory> {
    out.put("; pattern ")?;
    let read: Option<Pattern> = read_tree(alloc, known, names, tree)?;
    match read {
        Some(read) => pattern(out, &read)?,
        None => out.put("none")?,
    }
    out.put("; ground ")?;
    let read: Option<Term<Value>> = read_tree(alloc, known, &NameTable::new(alloc), tree)?;
    match read {
        Some(read) => term(out, &read)?,
        None => out.put("none")?,
    }
    for condition in whens {
        out.put("; condition ")?;
        let read: Option<RuleExpr> = read_tree(alloc, known, names, condition)?;
        match read {
            Some(read) => expression(out, &read)?,
            None => out.put("none")?,
        }
    }
    match read_expressions(alloc, known, names, whens)? {
        Some(list) => out.place("; together ", list.len())?,
        None => out.put("; together none")?,
    }
    Ok(())
}
