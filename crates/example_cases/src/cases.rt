//! The cases of files, one after the other.
use crate::failed::Failed;
use crate::forms::{is_word, list, word};
use crate::texts::Texts;
use sexp_text::{Form, read};
use std::alloc::Global;
use std::rt::{Env, Files};
use std::{env, fs};

/// The calls that a program of examples knows.
pub trait Calls {
    /// What the call with this name answers, printed.
    fn answer(
        alloc: Global,
        texts: &Texts,
        name: &[u8],
        arguments: &[Form],
    ) -> Result<String, Failed>;
}

/// Runs each case of the files that the words name, or without any of standard input, and writes its line and behind it what it
/// answers; a line without a form is no case. The case `(text NAME PART ..)` names a text, for the cases behind it in the same file.
pub fn run<C: Calls>(rt: &HostRuntime) -> Result<(), Failed> {
    let alloc = rt.alloc();
    let mut has_files = false;
    for file in env::args(rt)?.skip(1) {
        has_files = true;
        let text = fs::read_to_string(rt, file.as_str())?;
        let mut texts = Texts::new(alloc);
        for line in text.lines() {
            run_case::<C>(rt, alloc, &mut texts, line)?;
        }
    }
    if !has_files {
        let mut texts = Texts::new(alloc);
        for line in rt.lines(alloc) {
            let line = line?;
            run_case::<C>(rt, alloc, &mut texts, line.as_str())?;
        }
    }
    Ok(())
}

fn run_case<C: Calls>(
    rt: &impl Print,
    alloc: Global,
    texts: &mut Texts,
    line: &str,
) -> Result<(), Failed> {
    let forms = read(alloc, line.as_bytes())?;
    if let Some(form) = forms.as_slice().first() {
        let answer = answered::<C>(alloc, texts, list(form)?)?;
        println!(rt; "{line} => {answer}")?;
    }
    Ok(())
}

// What the call of a case answers.
fn answered<C: Calls>(alloc: Global, texts: &mut Texts, parts: &[Form]) -> Result<String, Failed> {
    match parts {
        [head, name, text @ ..] if is_word(head, b"text") => {
            let count = texts.define(alloc, word(name)?, text)?;
            Ok(format!(in alloc; "{count}")?)
        }
        [head, arguments @ ..] => C::answer(alloc, texts, word(head)?.as_slice(), arguments),
        [] => Err(Failed::NoCall),
    }
}
