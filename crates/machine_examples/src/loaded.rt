//! Texts that the calls of the layers above the loaders are for. Each loads, or the case has no answer.
ghost use Rattle.std.specs.Prelude.{IfOk};
ghost use Rattle.sort_term.specs.Problems.{AreCuts, IsProgram};
ghost use Rattle.sort_term.specs.Step.{IsState};
ghost use Rattle.sync_points.specs.Text.{AreLawful};

use example_cases::{Failed, Texts};
use program_text::{load_program, load_start, texts_load_programs, texts_load_starts};
use rule_text::LoadError;
use semantics_load::load;
use sexp_text::Form;
use sort_term::{Cuts, Left, Points, Problem, Program, Right, Semantics, Side, State};
use std::alloc::Global;
use sync_points::{load_points, texts_load_points};

/// A semantics.
pub fn loaded_semantics<S: Side>(
    alloc: Global,
    texts: &Texts,
    text: &Form,
) -> Result<Semantics<S>, Failed> {
    let bytes = texts.text(alloc, text)?;
    match load(alloc, bytes.as_slice()) {
        Ok(semantics) => Ok(semantics),
        Err(error) => Err(refused(error)),
    }
}

fn refused(error: LoadError) -> Failed {
    match error {
        LoadError::NoMemory => Failed::NoMemory,
        LoadError::Fault(_) => Failed::NoCall,
    }
}

/// A program of a semantics.
pub fn loaded_program<S: Side>(
    alloc: Global,
    texts: &Texts,
    semantics: &Semantics<S>,
    text: &Form,
) -> Result<Program<S>, Failed>
    ensures { IfOk result (IsProgram semantics.now) }
{
    let bytes = texts.text(alloc, text)?;
    program_of(alloc, semantics, bytes.as_slice())
}

fn program_of<S: Side>(
    alloc: Global,
    semantics: &Semantics<S>,
    bytes: &[u8],
) -> Result<Program<S>, Failed>
    ensures { IfOk result (IsProgram semantics.now) }
{
    texts_load_programs();
    match load_program(alloc, semantics, bytes) {
        Ok(program) => Ok(program),
        Err(error) => Err(refused(error)),
    }
}

/// A state of a semantics.
pub(crate) fn loaded_state<S: Side>(
    alloc: Global,
    texts: &Texts,
    semantics: &Semantics<S>,
    text: &Form,
) -> Result<State<S>, Failed>
    ensures { IfOk result (λ state. IsState semantics.now state.term) }
{
    texts_load_starts();
    let bytes = texts.text(alloc, text)?;
    match load_start(alloc, semantics, bytes.as_slice()) {
        Ok(state) => Ok(state),
        Err(error) => Err(refused(error)),
    }
}

/// Cuts and points for two semantics.
pub(crate) fn loaded_points(
    alloc: Global,
    texts: &Texts,
    left: &Semantics<Left>,
    right: &Semantics<Right>,
    text: &Form,
) -> Result<Points, Failed>
    ensures { IfOk result (AreLawful left.now right.now) }
{
    texts_load_points();
    let bytes = texts.text(alloc, text)?;
    match load_points(alloc, left, right, bytes.as_slice()) {
        Ok(points) => Ok(points),
        Err(error) => Err(refused(error)),
    }
}

/// A semantics, a program of it and a state of it.
#[derive(Drop)]
pub struct Machine {
    /// The semantics.
    pub semantics: Semantics<Left>,
    /// The program.
    pub program: Program<Left>,
    /// The state.
    pub state: State<Left>,
    /// The program and the state are of the semantics.
    pub ghost fits: { IsProgram semantics program × IsState semantics state.term },
}

/// A machine from the texts of its parts.
pub fn loaded_machine(
    alloc: Global,
    texts: &Texts,
    semantics: &Form,
    program: &Form,
    state: &Form,
) -> Result<Machine, Failed> {
    let semantics: Semantics<Left> = loaded_semantics(alloc, texts, semantics)?;
    match program_and_state(alloc, texts, &semantics, program, state) {
        Ok((program, state)) => Ok(Machine {
            semantics,
            program,
            state,
        }),
        Err(failed) => {
            drop(semantics);
            Err(failed)
        }
    }
}

fn program_and_state(
    alloc: Global,
    texts: &Texts,
    semantics: &Semantics<Left>,
    program: &Form,
    state: &Form,
) -> Result<(Program<Left>, State<Left>), Failed>
    ensures { IfOk result (λ parts. IsProgram semantics.now parts.0 × IsState semantics.now parts.1.term) }
{
    let program = loaded_program(alloc, texts, semantics, program)?;
    match loaded_state(alloc, texts, semantics, state) {
        Ok(state) => Ok((program, state)),
        Err(failed) => {
            drop(program);
            Err(failed)
        }
    }
}

/// The left cuts of points for two semantics, of which the second is that of a text.
pub fn loaded_left_cuts(
    alloc: Global,
    texts: &Texts,
    left: &Semantics<Left>,
    right: &Form,
    points: &Form,
) -> Result<Cuts<Left>, Failed>
    ensures { IfOk result (AreCuts left.now) }
{
    let right = loaded_semantics(alloc, texts, right)?;
    let loaded = loaded_points(alloc, texts, left, &right, points);
    drop(right);
    let Points {
        left_cuts,
        right_cuts,
        undefs,
        points,
    } = loaded?;
    drop((right_cuts, undefs, points));
    Ok(left_cuts)
}

/// The problem that a left and a right semantics, their programs and points are.
pub fn loaded_problem(
    alloc: Global,
    texts: &Texts,
    left: &Form,
    right: &Form,
    left_program: &Form,
    right_program: &Form,
    points: &Form,
) -> Result<Problem, Failed> {
    let (left, right) = both_semantics(alloc, texts, left, right)?;
    match both_programs(alloc, texts, &left, &right, left_program, right_program) {
        Ok((left_program, right_program)) => {
            with_points(
                alloc,
                texts,
                left,
                right,
                left_program,
                right_program,
                points,
            )
        }
        Err(failed) => {
            drop((left, right));
            Err(failed)
        }
    }
}

/// The problem that two semantics and points are, with programs without rows.
pub fn problem_without_rows(
    alloc: Global,
    texts: &Texts,
    left: &Form,
    right: &Form,
    points: &Form,
) -> Result<Problem, Failed> {
    let (left, right) = both_semantics(alloc, texts, left, right)?;
    match both_without_rows(alloc, &left, &right) {
        Ok((left_program, right_program)) => {
            with_points(
                alloc,
                texts,
                left,
                right,
                left_program,
                right_program,
                points,
            )
        }
        Err(failed) => {
            drop((left, right));
            Err(failed)
        }
    }
}

fn both_semantics(
    alloc: Global,
    texts: &Texts,
    left: &Form,
    right: &Form,
) -> Result<(Semantics<Left>, Semantics<Right>), Failed> {
    let left = loaded_semantics(alloc, texts, left)?;
    match loaded_semantics(alloc, texts, right) {
        Ok(right) => Ok((left, right)),
        Err(failed) => {
            drop(left);
            Err(failed)
        }
    }
}

fn both_programs(
    alloc: Global,
    texts: &Texts,
    left: &Semantics<Left>,
    right: &Semantics<Right>,
    left_program: &Form,
    right_program: &Form,
) -> Result<(Program<Left>, Program<Right>), Failed>
    ensures { IfOk result (λ programs. IsProgram left.now programs.0 × IsProgram right.now programs.1) }
{
    let left_program = loaded_program(alloc, texts, left, left_program)?;
    match loaded_program(alloc, texts, right, right_program) {
        Ok(right_program) => Ok((left_program, right_program)),
        Err(failed) => {
            drop(left_program);
            Err(failed)
        }
    }
}

fn both_without_rows(
    alloc: Global,
    left: &Semantics<Left>,
    right: &Semantics<Right>,
) -> Result<(Program<Left>, Program<Right>), Failed>
    ensures { IfOk result (λ programs. IsProgram left.now programs.0 × IsProgram right.now programs.1) }
{
    let left_program = program_of(alloc, left, b"")?;
    match program_of(alloc, right, b"") {
        Ok(right_program) => Ok((left_program, right_program)),
        Err(failed) => {
            drop(left_program);
            Err(failed)
        }
    }
}

fn with_points(
    alloc: Global,
    texts: &Texts,
    left: Semantics<Left>,
    right: Semantics<Right>,
    left_program: Program<Left>,
    right_program: Program<Right>,
    points: &Form,
) -> Result<Problem, Failed>
    requires left_rows { IsProgram left left_program }
    requires right_rows { IsProgram right right_program }
{
    match loaded_points(alloc, texts, &left, &right, points) {
        Ok(points) => Ok(problem(left, right, left_program, right_program, points)),
        Err(failed) => {
            drop((left, right, left_program, right_program));
            Err(failed)
        }
    }
}

// The problem of parts that fit each other.
fn problem(
    left: Semantics<Left>,
    right: Semantics<Right>,
    left_program: Program<Left>,
    right_program: Program<Right>,
    points: Points,
) -> Problem
    requires left_rows { IsProgram left left_program }
    requires right_rows { IsProgram right right_program }
    requires points { AreLawful left right points }
{
    // Reading their rules shows that both semantics have passed their checks.
    let (_left, _right) = (left.rules(), right.rules());
    Problem {
        left,
        right,
        left_program,
        right_program,
        points,
    }
}
