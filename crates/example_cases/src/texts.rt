//! Texts that cases name and build. A text is given by parts: a word is a text that was named before; `(bytes X ..)` are the
//! letters of each word and the byte of each number; `(repeat N PART ..)` are the parts N times; `(numbered N PART ..)` are they
//! for each number from 0 below N, with the number in the place of every `@`; every other form is its printed text and a line feed.
use crate::failed::Failed;
use crate::forms::{is_word, number};
use sexp_text::{Form, FormKind, Name, print};
use std::alloc::Global;

// No text has more bytes.
const MOST_BYTES: usize = 2_000_000;

#[derive(Drop)]
struct NamedText {
    name: Name,
    bytes: Vec<u8>,
}

/// The texts with a name.
#[derive(Drop)]
pub struct Texts {
    named: Vec<NamedText>,
}

impl Texts {
    /// None.
    pub fn new(alloc: Global) -> Texts {
        Texts {
            named: Vec::new(alloc),
        }
    }

    /// Names the text of some parts, and answers how many bytes it has.
    pub fn define(&mut self, alloc: Global, name: &Name, parts: &[Form]) -> Result<usize, Failed> {
        if self.find(name).is_ok() {
            return Err(Failed::NoCall);
        }
        let bytes = self.bytes(alloc, parts)?;
        let count = bytes.len();
        let name = name.copy(alloc)?;
        self.named.push(NamedText { name, bytes })?;
        Ok(count)
    }

    /// The bytes of a text: a name, or a list of parts.
    pub fn text(&self, alloc: Global, text: &Form) -> Result<Vec<u8>, Failed> {
        match &text.kind {
            FormKind::Word(name) => Ok(Vec::from_slice(alloc, self.find(name)?)?),
            FormKind::List(parts) => self.bytes(alloc, parts.as_slice()),
            FormKind::Number(_) => Err(Failed::NoCall),
        }
    }

    fn find(&self, name: &Name) -> Result<&[u8], Failed> {
        for text in &self.named {
            if text.name.same(name) {
                return Ok(text.bytes.as_slice());
            }
        }
        Err(Failed::NoCall)
    }

    #[cycle(parts)]
    fn bytes(&self, alloc: Global, parts: &[Form]) -> Result<Vec<u8>, Failed> {
        let mut bytes = Vec::new(alloc);
        for part in parts {
            self.append(alloc, &mut bytes, part)?;
        }
        Ok(bytes)
    }

    #[cycle(parts)]
    fn append(&self, alloc: Global, bytes: &mut Vec<u8>, part: &Form) -> Result<(), Failed> {
        match &part.kind {
            FormKind::Word(name) => append_bytes(bytes, self.find(name)?),
            FormKind::Number(_) => append_printed(alloc, bytes, part),
            FormKind::List(forms) => match forms.as_slice() {
                [head, rest @ ..] if is_word(head, b"bytes") => append_each(bytes, rest),
                [head, count, rest @ ..] if is_word(head, b"repeat") => {
                    let repeated = self.bytes(alloc, rest)?;
                    append_repeated(bytes, repeated.as_slice(), number(count)?)
                }
                [head, count, rest @ ..] if is_word(head, b"numbered") => {
                    let pattern = self.bytes(alloc, rest)?;
                    append_numbered(alloc, bytes, pattern.as_slice(), number(count)?)
                }
                _ => append_printed(alloc, bytes, part),
            },
        }
    }
}

fn append_bytes(bytes: &mut Vec<u8>, more: &[u8]) -> Result<(), Failed> {
    if MOST_BYTES < bytes.len().saturating_add(more.len()) {
        return Err(Failed::NoCall);
    }
    bytes.extend_from_slice(more)?;
    Ok(())
}

// The letters of words, and the bytes of numbers.
fn append_each(bytes: &mut Vec<u8>, forms: &[Form]) -> Result<(), Failed> {
    for form in forms {
        match &form.kind {
            FormKind::Word(name) => append_bytes(bytes, name.as_slice())?,
            FormKind::Number(number) => match u8::try_from(*number) {
                Ok(byte) => append_bytes(bytes, &[byte])?,
                Err(_) => return Err(Failed::NoCall),
            },
            FormKind::List(_) => return Err(Failed::NoCall),
        }
    }
    Ok(())
}

fn append_printed(alloc: Global, bytes: &mut Vec<u8>, form: &Form) -> Result<(), Failed> {
    let text = print(alloc, form)?;
    append_bytes(bytes, text.as_slice())?;
    append_bytes(bytes, b"\n")
}

fn append_repeated(bytes: &mut Vec<u8>, repeated: &[u8], times: u64) -> Result<(), Failed> {
    for _ in 0..times {
        append_bytes(bytes, repeated)?;
    }
    Ok(())
}

fn append_numbered(
    alloc: Global,
    bytes: &mut Vec<u8>,
    pattern: &[u8],
    count: u64,
) -> Result<(), Failed> {
    for number in 0..count {
        let digits = format!(in alloc; "{number}")?;
        append_filled(bytes, pattern, digits.as_bytes())?;
    }
    Ok(())
}

// The pattern with these digits in the place of every `@`.
fn append_filled(bytes: &mut Vec<u8>, pattern: &[u8], digits: &[u8]) -> Result<(), Failed> {
    for byte in pattern {
        if *byte == b'@' {
            append_bytes(bytes, digits)?;
        } else {
            append_bytes(bytes, &[*byte])?;
        }
    }
    Ok(())
}
