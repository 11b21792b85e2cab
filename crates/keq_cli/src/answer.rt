// What comes of a command's task with its texts: a status and a report.
ghost use Rattle.std.specs.Prelude.{IfOk, IfErr};
ghost use Rattle.keq_cli.specs.Asked.{IsBounded, task_view};
ghost use Rattle.keq_cli.specs.Plan.{Ends};
ghost use Rattle.keq_cli.specs.Tasks.{plan_of};
ghost use Rattle.keq_cli.specs.Stopping.{StopsWith};
ghost use Rattle.keq_cli.specs.declared.status.Status.{Status};

use crate::check::end_check;
use crate::loading::Stopped;
use crate::run::end_run;
use crate::texts::Texts;
use crate::words::Task;
use crate::{NoMemory, Status};
use sexp_text::Bytes;
use std::alloc::Global;

/// A status that a call may end with, and its report.
#[derive(Debug, Drop)]
pub struct Answer {
    pub status: Status,
    pub report: Bytes,
}

/// What comes of a task with these texts. The only error is want of memory.
pub fn answer_task(alloc: Global, task: Task, texts: &Texts) -> Result<Answer, NoMemory>
    requires { IsBounded task }
    ensures { IfOk result (λ answer. Ends (plan_of (task_view task)) texts.now answer.status answer.report) }
{
    match end_task(alloc, task, texts) {
        Ok(answer) => Ok(answer),
        Err(Stopped::Refused(report)) => Ok(Answer {
            status: Status::Refused,
            report,
        }),
        Err(Stopped::NoMemory) => Err(NoMemory),
    }
}

// The end of the task, or what stops it before.
fn end_task(alloc: Global, task: Task, texts: &Texts) -> Result<Answer, Stopped>
    requires { IsBounded task }
    ensures ends { IfOk result (λ answer. Ends (plan_of (task_view task)) texts.now answer.status answer.report) }
    ensures stops { IfErr result (StopsWith (Ends (plan_of (task_view task)) texts.now Status.Refused)) }
{
    match task {
        Task::Check { steps } => end_check(alloc, texts, steps),
        Task::Run { steps } => end_run(alloc, texts, steps),
    }
}
