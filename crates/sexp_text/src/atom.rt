// Words and numbers.
ghost use Rattle.std.specs.Prelude.{◌≡◌, ◌<◌, ◌≤◌, ◌+◌, ◌*◌, ◌^◌, length, IfOk, OnOk, IfErr, slice_index, true, false, [], ◌∷◌};
ghost use Rattle.std.specs.Option.{SomeIff};
ghost use Rattle.std.specs.Char.{digit_value};
ghost use Rattle.sexp_text.specs.Bytes.{is_atom_byte, is_blank};
ghost use Rattle.sexp_text.specs.Places.{commented, IsRun};
ghost use Rattle.sexp_text.specs.Numbers.{number_in, number_of};
ghost use Rattle.sexp_text.specs.Clear.{IsValid, IsInvalid};
ghost use Rattle.sexp_text.specs.Spells.{Spells};

use crate::fault::{ReadError, TextFault};
use crate::form::{Form, FormKind, Name};
use std::alloc::Global;

// The most bytes that a word may have.
const LONGEST: usize = 64;

pub fn is_blank(byte: u8) -> bool
    ensures { result ≡ is_blank byte }
{
    b" \t\n\r".contains(&byte)
}

pub fn is_atom_byte(byte: u8) -> bool
    ensures { result ≡ is_atom_byte byte }
{
    byte.is_ascii_alphanumeric() || b"-_./+*<>=!?%@$".contains(&byte)
}

// The end of the run of atom bytes that begins at the offset.
pub fn run_end(bytes: &[u8], start: usize) -> usize
    requires within { start < length bytes.now }
    requires outside { commented bytes.now start ≡ false }
    requires atom { is_atom_byte (slice_index bytes.now start) ≡ true }
    ensures run { IsRun bytes.now start result }
    ensures outside { commented bytes.now result ≡ false }
{
    let mut end = start + 1;
    while end < bytes.len() && is_atom_byte(bytes[end]) {
        end += 1;
    }
    end
}

// The number with one more digit, where the byte is a digit of the base and the number stays below 2^64.
fn with_digit(base: u8, value: u64, byte: u8) -> Option<u64>
    requires low { 2 ≤ base }
    requires high { base ≤ 16 }
    ensures { SomeIff result ((digit_value byte < base) × (value * base + digit_value byte < 2 ^ 64)) (value * base + digit_value byte) }
{
    let digit = char::from(byte).to_digit(u32::from(base))?;
    value
        .checked_mul(u64::from(base))?
        .checked_add(u64::from(digit))
}

// The number below 2^64 that the digits write.
fn number_of_digits(base: u8, digits: &[u8]) -> Option<u64>
    requires low { 2 ≤ base }
    requires high { base ≤ 16 }
    ensures { result ≡ number_in base digits.now }
{
    if digits.is_empty() {
        return None;
    }
    let mut value = 0u64;
    for byte in digits {
        value = with_digit(base, value, *byte)?;
    }
    Some(value)
}

fn number(text: &[u8]) -> Option<u64>
    ensures { result ≡ number_of text.now }
{
    match text {
        [b'0', b'x', digits @ ..] => number_of_digits(16, digits),
        _ => number_of_digits(10, text),
    }
}

// The word or the number that is a run of atom bytes.
pub fn atom(alloc: Global, bytes: &[u8], start: usize, end: usize) -> Result<Form, ReadError>
    requires { IsRun bytes.now start end }
    ensures form { IfOk result (λ form. Spells bytes.now (form ∷ []) start end) }
    ensures valid { OnOk result (IsValid bytes.now start end) }
    ensures invalid { IfErr result (IsInvalid bytes.now start end) }
{
    let text = &bytes[start..end];
    if bytes[start].is_ascii_digit() {
        return match number(text) {
            Some(number) => Ok(Form {
                kind: FormKind::Number(number),
                start,
                end,
            }),
            None => Err(ReadError::Text(TextFault::BadNumber(start))),
        };
    }
    if LONGEST < text.len() {
        return Err(ReadError::Text(TextFault::LongName(start)));
    }
    Ok(Form {
        kind: FormKind::Word(Name::new(alloc, text)?),
        start,
        end,
    })
}
