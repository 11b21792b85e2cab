// The reader: one byte or one run of atom bytes at a time, with the open lists kept in a tree.
ghost use Rattle.std.specs.Prelude.{◌≡◌, ◌≢◌, ◌<◌, ◌≤◌, false, length, slice_index, IfOk, OnOk, IfErr};
ghost use Rattle.sexp_text.specs.Places.{commented};
ghost use Rattle.sexp_text.specs.Text.{IsText};
ghost use Rattle.sexp_text.specs.Faults.{IsReadError};
ghost use Rattle.sexp_text.specs.Clear.{IsClear};
ghost use Rattle.sexp_text.specs.Step.{IsStep};
ghost use Rattle.sexp_text.specs.Open.{IsReadFrom};

use crate::atom::{atom, is_atom_byte, is_blank, run_end};
use crate::fault::{ReadError, TextFault};
use crate::form::Forms;
use crate::tree::Tree;
use std::alloc::Global;

// The most bytes of a text.
const LIMIT: usize = 1_048_576;

// The most lists that may be open at a place.
const DEEPEST: usize = 64;

/// The forms of a text, in its order and with their spans.
///
/// `Ok` comes exactly where the text is in the grammar that the crate's first page gives: it has at most 1,048,576
/// bytes, spells the forms, and nests lists at most 64 deep. Any other text is refused for its first fault: the one with
/// the least offset, but [`TextFault::TooLong`] comes before all others. Each error yields to want of memory.
///
/// The walk keeps the open lists in a list of its own and doesn't recurse.
pub fn read(alloc: Global, bytes: &[u8]) -> Result<Forms, ReadError>
    ensures forms { IfOk result (IsText bytes.now) }
    ensures fault { IfErr result (IsReadError bytes.now) }
{
    if LIMIT < bytes.len() {
        return Err(ReadError::Text(TextFault::TooLong(LIMIT)));
    }
    let mut tree = Tree::new(alloc);
    let mut comment = false;
    let mut at = 0;
    while at < bytes.len() {
        let byte = bytes[at];
        if 128 <= byte {
            return Err(ReadError::Text(TextFault::NotAscii(at)));
        }
        if comment {
            comment = byte != b'\n';
            at += 1;
        } else if byte == b';' {
            comment = true;
            at += 1;
        } else {
            at = step(alloc, bytes, at, &mut tree)?;
        }
    }
    if !tree.outer.is_empty() {
        return Err(ReadError::Text(TextFault::Unclosed(bytes.len())));
    }
    let Tree { outer: _, forms } = tree;
    Ok(forms)
}

// Reads what stands at a place outside comments, and answers the place behind it. An atom is taken whole.
fn step(alloc: Global, bytes: &[u8], at: usize, tree: &mut Tree) -> Result<usize, ReadError>
    requires within { at < length bytes.now }
    requires outside { commented bytes.now at ≡ false }
    requires plain { slice_index bytes.now at ≢ 59 }
    requires read { IsReadFrom bytes.now 0 tree.old.outer tree.old.forms at }
    requires ascii { slice_index bytes.now at < 128 }
    requires clear { IsClear bytes.now (length tree.old.outer) at }
    ensures step { IfOk result (λ next. IsStep bytes.now at next tree.new) }
    ensures fault { IfErr result (IsReadError bytes.now) }
{
    let byte = bytes[at];
    if is_blank(byte) {
        return Ok(at + 1);
    }
    if byte == b'(' {
        if tree.outer.len() == DEEPEST {
            return Err(ReadError::Text(TextFault::Deep(at)));
        }
        tree.begin(alloc, at)?;
        return Ok(at + 1);
    }
    if byte == b')' {
        if !tree.finish(at + 1)? {
            return Err(ReadError::Text(TextFault::Unopened(at)));
        }
        return Ok(at + 1);
    }
    if !is_atom_byte(byte) {
        return Err(ReadError::Text(TextFault::BadChar(at)));
    }
    let end = run_end(bytes, at);
    tree.add(atom(alloc, bytes, at, end)?)?;
    Ok(end)
}
