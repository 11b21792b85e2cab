//! What a search runs on.
ghost use Rattle.std.specs.Prelude.{IfOk};
ghost use Rattle.sort_term.specs.Problems.{AreCuts, IsProgram};

use example_cases::{Failed, Texts};
use machine_examples::{loaded_left_cuts, loaded_program, loaded_semantics};
use sexp_text::Form;
use sort_term::{Cuts, Left, Program, Semantics};
use std::alloc::Global;

/// A semantics, a program of it and a cut of it.
#[derive(Drop)]
pub(crate) struct CutSystem {
    /// The semantics.
    pub(crate) semantics: Semantics<Left>,
    /// The program.
    pub(crate) program: Program<Left>,
    /// The cut.
    pub(crate) cuts: Cuts<Left>,
    /// The program and the cut are of the semantics.
    pub(crate) ghost fits: { IsProgram semantics program × AreCuts semantics cuts },
}

/// A system from the texts of its parts.
pub(crate) fn loaded_cut_system(
    alloc: Global,
    texts: &Texts,
    semantics: &Form,
    program: &Form,
    points: &Form,
) -> Result<CutSystem, Failed> {
    let text = semantics;
    let semantics: Semantics<Left> = loaded_semantics(alloc, texts, text)?;
    match program_and_cuts(alloc, texts, &semantics, text, program, points) {
        Ok((program, cuts)) => Ok(CutSystem {
            semantics,
            program,
            cuts,
        }),
        Err(failed) => {
            drop(semantics);
            Err(failed)
        }
    }
}

fn program_and_cuts(
    alloc: Global,
    texts: &Texts,
    semantics: &Semantics<Left>,
    text: &Form,
    program: &Form,
    points: &Form,
) -> Result<(Program<Left>, Cuts<Left>), Failed>
    ensures { IfOk result (λ parts. IsProgram semantics.now parts.0 × AreCuts semantics.now parts.1) }
{
    let program = loaded_program(alloc, texts, semantics, program)?;
    match loaded_left_cuts(alloc, texts, semantics, text, points) {
        Ok(cuts) => Ok((program, cuts)),
        Err(failed) => {
            drop(program);
            Err(failed)
        }
    }
}
