//! Runs the top call on cases, over texts in memory. A case is `(keq (WORD ..) ((NAME TEXT) ..) (FAILS ..) ROOM)`: the words, each as
//! it stands, a number by its decimal digits, or as the parts of a text; the files that the shelf holds; the numbers of the fetches that
//! fail, the first being 1; and for how many bytes the sink has room. Printed are the status, its number, and the bytes that the
//! sink took, a line feed as `\n`.
#![tactic(auto)]

mod command;

use example_cases::{Calls, Failed, Texts, list, put_lines, run, small};
use keq_cli::{MemoryShelf, MemorySink, Status, keq};
use sexp_text::Form;
use std::alloc::{AllocError, Global};

fn main(rt: HostRuntime) -> Result<(), Failed> {
    run::<TopCall>(&rt)
}

struct TopCall;

impl Calls for TopCall {
    fn answer(
        alloc: Global,
        texts: &Texts,
        name: &[u8],
        arguments: &[Form],
    ) -> Result<String, Failed> {
        match arguments {
            [words, files, fails, room] if name == b"keq".as_slice() => {
                let words = command::words(alloc, texts, list(words)?)?;
                let files = command::files(alloc, texts, list(files)?)?;
                let fails = command::fails(alloc, list(fails)?)?;
                let mut shelf = MemoryShelf::new(files, fails);
                let mut out = MemorySink::new(alloc, small(room)?)?;
                let status = keq(alloc, words.as_slice(), &mut shelf, &mut out);
                Ok(told(alloc, status, out.bytes())?)
            }
            _ => Err(Failed::NoCall),
        }
    }
}

fn told(alloc: Global, status: Status, taken: &[u8]) -> Result<String, AllocError> {
    let (name, code) = (status_name(status), status.code());
    let mut text = format!(in alloc; "{name} {code} \"")?;
    put_lines(&mut text, taken)?;
    text.push_str("\"")?;
    Ok(text)
}

fn status_name(status: Status) -> &'static str {
    match status {
        Status::Equivalent => "equivalent",
        Status::Refines => "refines",
        Status::Unmatched => "unmatched",
        Status::NotGrounded => "not-grounded",
        Status::Refused => "refused",
        Status::ReadFault => "read-fault",
        Status::WriteFault => "write-fault",
        Status::NoMemory => "no-memory",
        Status::Usage => "usage",
        Status::Done => "done",
    }
}
