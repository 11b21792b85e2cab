// Loads texts, each by its kind. One that does not load stops the command with its refusal.
ghost use Rattle.std.specs.Prelude.{◌≡◌, IfOk, IfErr};
ghost use Rattle.rule_text.specs.Faults.{IsFaultOf};
ghost use Rattle.semantics_load.specs.Declaring.{nothing};
ghost use Rattle.semantics_load.specs.Loads.{semantics_loading};
ghost use Rattle.semantics_load.specs.Text.{IsSemanticsText};
ghost use Rattle.program_text.specs.Rows.{no_rows, program_loading};
ghost use Rattle.program_text.specs.States.{no_start, start_loading};
ghost use Rattle.program_text.specs.Text.{IsProgramText, IsStartText};
ghost use Rattle.sync_points.specs.Pieces.{no_points};
ghost use Rattle.sync_points.specs.Loads.{points_loading};
ghost use Rattle.sync_points.specs.Text.{IsPointsText};
ghost use Rattle.keq_cli.specs.Tasks.{IsRefusal, text_at};
ghost use Rattle.keq_cli.specs.Stopping.{IsErrorLine, StopsWith};
ghost use Rattle.keq_cli.specs.declared.loading.Stopped.TheVariants.{NoMemory as OutOfMemory};

use crate::texts::{Texts, text_at};
use crate::{NoMemory, Role};
use program_text::{load_program, load_start};
use report_text::fault_text;
use rule_text::LoadError;
use semantics_load::load;
use sexp_text::Bytes;
use sort_term::{Left, Points, Program, Right, Semantics, Side, State};
use std::alloc::Global;
use sync_points::load_points;

/// What stops a command before its end.
#[derive(Debug, Drop)]
pub enum Stopped {
    /// The line that refuses its texts.
    Refused(Bytes),
    NoMemory,
}

impl From<NoMemory> for Stopped {
    ghost from_gives = { λ _ e. e ≡ OutOfMemory };

    fn from(_: NoMemory) -> Self {
        Stopped::NoMemory
    }
}

/// The semantics of the text at a place.
pub fn semantics<S: Side>(
    alloc: Global,
    role: Role,
    texts: &Texts,
    place: usize,
) -> Result<Semantics<S>, Stopped>
    ensures made { IfOk result (IsSemanticsText (text_at texts.now place)) }
    ensures stops { IfErr result (StopsWith (IsRefusal role (IsFaultOf semantics_loading nothing (text_at texts.now place)))) }
{
    match load(alloc, text_at(texts, place)) {
        Ok(semantics) => Ok(semantics),
        Err(error) => Err(stopped_by(alloc, role, error)),
    }
}

/// The program of the text at a place, for a semantics.
pub fn program<S: Side>(
    alloc: Global,
    role: Role,
    semantics: &Semantics<S>,
    texts: &Texts,
    place: usize,
) -> Result<Program<S>, Stopped>
    ensures made { IfOk result (IsProgramText semantics.now (text_at texts.now place)) }
    ensures stops { IfErr result
        (StopsWith (IsRefusal role (IsFaultOf program_loading (no_rows semantics.now) (text_at texts.now place)))) }
{
    match load_program(alloc, semantics, text_at(texts, place)) {
        Ok(program) => Ok(program),
        Err(error) => Err(stopped_by(alloc, role, error)),
    }
}

/// The state of the text at a place, for a semantics.
pub fn start<S: Side>(
    alloc: Global,
    role: Role,
    semantics: &Semantics<S>,
    texts: &Texts,
    place: usize,
) -> Result<State<S>, Stopped>
    ensures made { IfOk result (λ state. IsStartText semantics.now (text_at texts.now place) state.term) }
    ensures stops { IfErr result
        (StopsWith (IsRefusal role (IsFaultOf start_loading (no_start semantics.now) (text_at texts.now place)))) }
{
    match load_start(alloc, semantics, text_at(texts, place)) {
        Ok(state) => Ok(state),
        Err(error) => Err(stopped_by(alloc, role, error)),
    }
}

/// The cuts and points of the text at a place, between two semantics.
pub fn points(
    alloc: Global,
    role: Role,
    left: &Semantics<Left>,
    right: &Semantics<Right>,
    texts: &Texts,
    place: usize,
) -> Result<Points, Stopped>
    ensures made { IfOk result (IsPointsText left.now right.now (text_at texts.now place)) }
    ensures stops { IfErr result
        (StopsWith (IsRefusal role (IsFaultOf points_loading (no_points left.now right.now) (text_at texts.now place)))) }
{
    match load_points(alloc, left, right, text_at(texts, place)) {
        Ok(points) => Ok(points),
        Err(error) => Err(stopped_by(alloc, role, error)),
    }
}

// What stops a command where the text with this role does not load.
fn stopped_by(alloc: Global, role: Role, error: LoadError) -> Stopped
    ensures { StopsWith (IsErrorLine role error) result }
{
    match error {
        LoadError::Fault(fault) => match fault_text(alloc, role, &fault) {
            Ok(line) => Stopped::Refused(line),
            Err(NoMemory) => Stopped::NoMemory,
        },
        LoadError::NoMemory => Stopped::NoMemory,
    }
}
