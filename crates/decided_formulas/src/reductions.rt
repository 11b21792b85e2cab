//! Formulas without their maps.
use crate::conditions::condition;
use crate::valuations::{put_name, put_valuation};
use data_value::{Words, are_words};
use example_cases::{Failed, number};
use expr_pool::Pool;
use formula_text::Names;
use map_reads::{Reads, lift, without_maps};
use sexp_text::Form;
use shown_terms::Shown;
use sqlite_items::Items;
use std::alloc::{AllocError, Global};

/// The reads of a formula without maps.
pub(crate) fn reads(alloc: Global, form: &Form) -> Result<String, Failed> {
    let mut names = Names::new(alloc);
    let reads = reduced(alloc, &mut names, form)?;
    let mut out = Shown::new(alloc);
    put_reads(&mut out, &names, &reads)?;
    Ok(out.into_text())
}

fn put_reads(out: &mut Shown, names: &Names, reads: &Reads) -> Result<(), AllocError> {
    if reads.reads.len() == 0 {
        return out.put("no reads");
    }
    for read in reads.reads.as_slice() {
        out.part(", ")?;
        put_name(out, names, read.variable)?;
        out.place(" at ", read.key)?;
    }
    Ok(())
}

/// The valuation that words give for the inputs of a formula without maps.
pub(crate) fn lifted(alloc: Global, form: &Form, words: &[Form]) -> Result<String, Failed> {
    let mut names = Names::new(alloc);
    let reads = reduced(alloc, &mut names, form)?;
    let words = words_of(alloc, words)?;
    if !are_words(reads.flat.widths.as_slice(), words.as_slice()) {
        return Err(Failed::NoCall);
    }
    let valuation = lift(alloc, &reads, &words)?;
    let mut out = Shown::new(alloc);
    out.put("lifted")?;
    put_valuation(&mut out, &names, valuation.as_slice())?;
    Ok(out.into_text())
}

fn reduced(alloc: Global, names: &mut Names, form: &Form) -> Result<Reads, Failed> {
    let mut pool = Pool::new(alloc)?;
    let node = condition(alloc, &mut pool, names, form)?;
    Ok(without_maps(alloc, &pool, &node)?)
}

fn words_of(alloc: Global, forms: &[Form]) -> Result<Words, Failed> {
    let mut words = Items::new(alloc);
    for form in forms {
        words.push(number(form)?)?;
    }
    Ok(words)
}
