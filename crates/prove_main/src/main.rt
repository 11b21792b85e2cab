//! Reads formulas from standard input, one a line, and prints for each whether no valuation of its variables makes it true, or one
//! that does.
#![tactic(auto)]

use decided_formulas::decided;
use example_cases::Failed;
use expr_pool::Pool;
use sexp_text::{Form, read};
use std::alloc::{AllocError, Global};

fn main(rt: HostRuntime) -> Result<(), Failed> {
    let alloc = rt.alloc();
    for line in rt.lines(alloc) {
        answer_line(&rt, alloc, line?.as_str())?;
    }
    Ok(())
}

// Prints what is decided of the formula of a line. A line without a form has none.
fn answer_line(rt: &impl Print, alloc: Global, line: &str) -> Result<(), Failed> {
    let bytes = with_atoms(alloc, line)?;
    let forms = read(alloc, bytes.as_slice())?;
    if let Some(form) = forms.as_slice().first() {
        let answer = decided_line(alloc, form)?;
        println!(rt; "{answer}")?;
    }
    Ok(())
}

fn decided_line(alloc: Global, form: &Form) -> Result<String, Failed> {
    let mut pool = Pool::new(alloc)?;
    decided(alloc, &mut pool, &[], form)
}

// The bytes of a line. A colon stands for the sign that words have between a name and its sort.
fn with_atoms(alloc: Global, line: &str) -> Result<Vec<u8>, AllocError> {
    let mut bytes = Vec::new(alloc);
    for byte in line.as_bytes() {
        bytes.push(if *byte == b':' { b'@' } else { *byte })?;
    }
    Ok(bytes)
}
