// Fetches the files of a command, and does its task with their texts.
ghost use Rattle.std.specs.Prelude.{◌≡◌, ◌≤◌, Some, IfOk, OnOk, IfSome, IsErrOf};
ghost use Rattle.keq_cli.specs.Outside.{HasFetchCause, count_after};
ghost use Rattle.keq_cli.specs.Words.{file_count};
ghost use Rattle.keq_cli.specs.Asked.{IsBounded, command_view};
ghost use Rattle.keq_cli.specs.Outcome.{IsOutcome};
ghost use Rattle.keq_cli.specs.Status.{IsAnswer};
ghost use Rattle.keq_cli.specs.Texts.{HoldsNamed, HoldsSteadily};

use crate::answer::{Answer, answer_task};
use crate::fetching::fetch_texts;
use crate::words::Command;
use crate::{Fetch, Shelf};
use std::alloc::Global;

/// Fetches the named files, each once, and answers what comes of the command's task with their texts.
pub fn answer_command<F: Shelf>(
    alloc: Global,
    command: &Command<'_>,
    shelf: &mut F,
) -> Result<Answer, Fetch>
    requires { IsBounded command.now.task }
    ensures outcome { IfOk result (IsOutcome (F.holds shelf.old) (Some (command_view command.now))) }
    ensures answer { IfOk result (λ answer. IsAnswer answer.status) }
    ensures held { IfOk result (λ _. IfSome (F.holds shelf.old) (λ files. HoldsNamed files (Some (command_view command.now)))) }
    ensures fetches { F.calls shelf.new ≤ count_after (file_count (Some (command_view command.now))) (F.calls shelf.old) }
    ensures fetched { OnOk result (F.calls shelf.new ≡ count_after (file_count (Some (command_view command.now))) (F.calls shelf.old)) }
    ensures cause { HasFetchCause (F.faults shelf.old) (F.faults shelf.new) result }
    ensures steady { HoldsSteadily (F.steady shelf.old) (F.holds shelf.old) (Some (command_view command.now)) → IsErrOf result Fetch.Failed → ⊥ }
{
    let texts = fetch_texts(alloc, command.names, shelf)?;
    Ok(answer_task(alloc, command.task, &texts)?)
}
