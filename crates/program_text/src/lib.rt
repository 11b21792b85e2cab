//! The program and the start state that texts write.
//!
//! # What is proved
//!
//! - [`load_program`] gives the program of which a text is: that of the rows which the items of the text make, each behind
//!   those before it, one list for each table of the semantics. Else it gives the first fault of the text: that of its bytes,
//!   or that of the first item that has one. Of several faults of an item the first in this order counts: it is no row
//!   (shape); its table or a constructor is unknown (name); its table has 4,096 rows already, or the key or a part of the term
//!   passes a limit (limit); the term is no ground term of the table's sort (sort); an earlier row of the table has the key
//!   (double key).
//! - [`load_start`] gives the state of which a text is, which its one item writes, or else the first fault of the text, in the
//!   same order. A second item has a fault of shape, and so has a text without items, in item 1.
//! - Want of memory is the only other answer of both, and the only one that no contract ties to the arguments.
//!
//! So each answer is the only one that a text may have:
//!
//! - A text is that of one program at most, and of one state ([`text_is_of_one_program`], [`text_is_of_one_state`]).
//! - It has one first fault at most ([`program_text_has_one_fault`], [`start_text_has_one_fault`]).
//! - It never has both ([`program_text_has_no_value_and_fault`], [`start_text_has_no_value_and_fault`]).
//!
//! And what is loaded is lawful: a program of the semantics ([`texts_load_programs`]), and a tree of the configuration sort
//! ([`texts_load_starts`]).
#![tactic(auto)]

ghost use Rattle.std.specs.Prelude.{IfOk, IfErr};
ghost use Rattle.rule_text.specs.Faults.{IsLoadError};
ghost use Rattle.program_text.specs.Rows.{no_rows, program_loading};
ghost use Rattle.program_text.specs.States.{no_start, start_loading};
ghost use Rattle.program_text.specs.Text.{IsProgramText, IsStartText};

mod ground_reader;
mod key_table;
mod laws;
mod program_draft;
mod start_draft;

pub use laws::{
    program_text_has_no_value_and_fault, program_text_has_one_fault,
    start_text_has_no_value_and_fault, start_text_has_one_fault, text_is_of_one_program,
    text_is_of_one_state, texts_load_programs, texts_load_starts,
};
use program_draft::ProgramDraft;
use rule_text::{FileKind, LoadError, load_text};
use sort_term::{Config, Program, Semantics, Side, State};
use start_draft::StartDraft;
use std::alloc::Global;

/// Loads the text of a program for a semantics: the answer is the program of which this is a text, or else the first fault of
/// the text. Want of memory is the only other answer.
pub fn load_program<S: Side>(
    alloc: Global,
    semantics: &Semantics<S>,
    bytes: &[u8],
) -> Result<Program<S>, LoadError>
    ensures ok { IfOk result (IsProgramText semantics.now bytes.now) }
    ensures fault { IfErr result (IsLoadError program_loading (no_rows semantics.now) bytes.now) }
{
    let start = ProgramDraft::new(alloc, semantics)?;
    let draft = load_text(alloc, FileKind::Program, start, bytes)?;
    Ok(Program::new(draft.into_rows()))
}

/// Loads the text of a state of a semantics: the answer is the state of which this is a text, or else the first fault of the
/// text. Want of memory is the only other answer.
pub fn load_start<S: Side>(
    alloc: Global,
    semantics: &Semantics<S>,
    bytes: &[u8],
) -> Result<State<S>, LoadError>
    ensures ok { IfOk result (λ state. IsStartText semantics.now bytes.now state.term) }
    ensures fault { IfErr result (IsLoadError start_loading (no_start semantics.now) bytes.now) }
{
    let start = StartDraft::new(alloc, semantics)?;
    let draft = load_text(alloc, FileKind::Start, start, bytes)?;
    match draft.into_tree() {
        Some(tree) => Ok(Config::new(tree)),
        None => unreachable!(),
    }
}
