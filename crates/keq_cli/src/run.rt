// The task of a run: three texts, and the run by the first rules.
ghost use Rattle.std.specs.Prelude.{IfErr, IfOk};
ghost use Rattle.semantics_load.specs.Text.{IsSemanticsText};
ghost use Rattle.program_text.specs.Text.{IsProgramText};
ghost use Rattle.keq_cli.specs.Plan.{Ends};
ghost use Rattle.keq_cli.specs.Tasks.{run_plan, text_at};
ghost use Rattle.keq_cli.specs.Stopping.{StopsWith};
ghost use Rattle.keq_cli.specs.declared.status.Status.{Status};

use crate::answer::Answer;
use crate::loading::{self, Stopped};
use crate::texts::Texts;
use crate::{Role, Status};
use ground_step::first_run;
use program_text::{texts_load_programs, texts_load_starts};
use report_text::run_text;
use sort_term::{Left, Program, Semantics};
use std::alloc::Global;

/// Runs the program of the texts from their start, by the first rules, for so many steps.
pub fn end_run(alloc: Global, texts: &Texts, steps: u32) -> Result<Answer, Stopped>
    ensures ends { IfOk result (λ answer. Ends (run_plan steps) texts.now answer.status answer.report) }
    ensures stops { IfErr result (StopsWith (Ends (run_plan steps) texts.now Status.Refused)) }
{
    // A run has one side, and either would do.
    let semantics = loading::semantics::<Left>(alloc, Role::Semantics, texts, 0)?;
    let ended = run_program(alloc, texts, steps, &semantics);
    drop(semantics);
    ended
}

fn run_program(
    alloc: Global,
    texts: &Texts,
    steps: u32,
    semantics: &Semantics<Left>,
) -> Result<Answer, Stopped>
    requires { IsSemanticsText (text_at texts.now 0) semantics.now }
    ensures ends { IfOk result (λ answer. Ends (run_plan steps) texts.now answer.status answer.report) }
    ensures stops { IfErr result (StopsWith (Ends (run_plan steps) texts.now Status.Refused)) }
{
    let program = loading::program(alloc, Role::Program, semantics, texts, 1)?;
    let ended = run_from_start(alloc, texts, steps, semantics, &program);
    drop(program);
    ended
}

fn run_from_start(
    alloc: Global,
    texts: &Texts,
    steps: u32,
    semantics: &Semantics<Left>,
    program: &Program<Left>,
) -> Result<Answer, Stopped>
    requires semantics { IsSemanticsText (text_at texts.now 0) semantics.now }
    requires program { IsProgramText semantics.now (text_at texts.now 1) program.now }
    ensures ends { IfOk result (λ answer. Ends (run_plan steps) texts.now answer.status answer.report) }
    ensures stops { IfErr result (StopsWith (Ends (run_plan steps) texts.now Status.Refused)) }
{
    texts_load_programs();
    texts_load_starts();
    let start = loading::start(alloc, Role::Start, semantics, texts, 2)?;
    let found = first_run(alloc, semantics, program, &start, steps);
    drop(start);
    let ended = found?;
    let report = run_text(alloc, semantics, &ended);
    drop(ended);
    Ok(Answer {
        status: Status::Done,
        report: report?,
    })
}
