// The top call: words, fetches, a task, and one put of the whole report.
ghost use Rattle.std.specs.Prelude.{◌≡◌, ◌≢◌, ◌⊎◌, ◌<◌, ◌≤◌, None, IfSome};
ghost use Rattle.keq_cli.specs.Outside.{Rose, IsTaken, IsFrontTaken, count_after};
ghost use Rattle.keq_cli.specs.Words.{asked, file_count};
ghost use Rattle.keq_cli.specs.Status.{IsAnswer, HasReport};
ghost use Rattle.keq_cli.specs.Reports.{bad_words_line};
ghost use Rattle.keq_cli.specs.Texts.{HoldsNamed, HoldsSteadily};
ghost use Rattle.keq_cli.specs.Outcome.{IsReported, IsFrontReported};

use crate::commands::answer_command;
use crate::words::parse_words;
use crate::{Failed, Fetch, Shelf, Sink, Status};
use std::alloc::Global;

/// Runs one command: reads the words, fetches the texts that they name, does the command's task with them, and puts the
/// report in one piece.
///
/// `words` are those of the command line without the program's name. They have the form of one of two commands:
///
/// - `check LEFT-SEMANTICS RIGHT-SEMANTICS LEFT-PROGRAM RIGHT-PROGRAM POINTS`, with or without a last word STEPS, judges the
///   points, by runs of at most STEPS steps to the next state of the cut. Without STEPS it is 1,000.
/// - `run SEMANTICS PROGRAM START STEPS` runs the program from the start, at each state by the first rule that gives a step,
///   until STEPS steps are taken or a state has none.
///
/// STEPS has one to five ASCII digits and a value from 1 to 10,000. All fetches come before the first text is loaded, in the
/// order of the words, one for each file. The first that fails ends the call.
///
/// What the clauses say of the bytes taken holds where the sink tells them, and what they say of the texts held where
/// the shelf tells them. All else holds over every shelf and every sink. `NoMemory` is free, but for words of no form.
pub fn keq<F: Shelf, O: Sink>(alloc: Global, words: &[String], shelf: &mut F, out: &mut O) -> Status
    // Words of no form, and no others, end with `Usage` and the one line, or with `WriteFault` and a front of it. They
    // make no fetch.
    ensures usage { asked words.now ≡ None → (result ≡ Status.Usage) ⊎ (result ≡ Status.WriteFault) }
    ensures usage_whole { result ≡ Status.Usage → IsTaken (O.taken out.old) bad_words_line (O.taken out.new) }
    ensures usage_front { asked words.now ≡ None → IsFrontTaken (O.taken out.old) bad_words_line (O.taken out.new) }
    ensures usage_alone { asked words.now ≡ None → shelf.new ≡ shelf.old }
    ensures usage_only { result ≡ Status.Usage → asked words.now ≡ None }

    // An answer, which is none of `ReadFault`, `WriteFault` and `NoMemory`, is an outcome of what the words ask for, and
    // exactly its report was taken; on `WriteFault` a front of the report of an outcome. A command ends as it does on some
    // texts, one for each name. Where the shelf tells what it holds, each named text is held, and the texts are these: there
    // is one outcome.
    ensures outcome { IsAnswer result → IsReported (F.holds shelf.old) (asked words.now) result (O.taken out.old) (O.taken out.new) }
    ensures front { result ≡ Status.WriteFault → IsFrontReported (F.holds shelf.old) (asked words.now) (O.taken out.old) (O.taken out.new) }
    ensures held { IsAnswer result → IfSome (F.holds shelf.old) (λ files. HoldsNamed files (asked words.now)) }

    // There are no more fetches than the words name files, and exactly as many where a report was put, whole or not.
    ensures fetches { F.calls shelf.new ≤ count_after (file_count (asked words.now)) (F.calls shelf.old) }
    ensures fetched { HasReport result → F.calls shelf.new ≡ count_after (file_count (asked words.now)) (F.calls shelf.old) }

    // Neither count of faults falls. On an answer both are as before.
    ensures read_count { F.faults shelf.old ≤ F.faults shelf.new }
    ensures write_count { O.faults out.old ≤ O.faults out.new }
    ensures counts { IsAnswer result → (F.faults shelf.new ≡ F.faults shelf.old) × (O.faults out.new ≡ O.faults out.old) }

    // `WriteFault` comes only where the sink's count rose, and wherever it is greater than before.
    ensures write_cause { result ≡ Status.WriteFault → Rose (O.faults out.old) (O.faults out.new) }
    ensures write_told { O.faults out.old < O.faults out.new → result ≡ Status.WriteFault }

    // `ReadFault` comes only where the shelf's count rose, and wherever it is greater than before. The sink was not
    // called.
    ensures read_cause { result ≡ Status.ReadFault → Rose (F.faults shelf.old) (F.faults shelf.new) }
    ensures read_told { F.faults shelf.old < F.faults shelf.new → result ≡ Status.ReadFault }
    ensures read_alone { result ≡ Status.ReadFault → out.new ≡ out.old }

    // It never comes over a steady shelf that holds each named text.
    ensures read_steady { HoldsSteadily (F.steady shelf.old) (F.holds shelf.old) (asked words.now) → result ≢ Status.ReadFault }

    // On `NoMemory` the sink was not called.
    ensures memory_alone { result ≡ Status.NoMemory → out.new ≡ out.old }
{
    let Some(command) = parse_words(words) else {
        return put_report(out, Status::Usage, b"bad command line\n");
    };
    match answer_command(alloc, &command, shelf) {
        Ok(answer) => put_report(out, answer.status, answer.report.as_slice()),
        Err(Fetch::Failed) => Status::ReadFault,
        Err(Fetch::NoMemory) => Status::NoMemory,
    }
}

// Puts the whole report of an answer, and gives its status, or says that the put failed.
fn put_report<O: Sink>(out: &mut O, status: Status, report: &[u8]) -> Status
    requires { IsAnswer status }
    ensures status { (result ≡ status) ⊎ (result ≡ Status.WriteFault) }
    ensures whole { IsAnswer result → IsTaken (O.taken out.old) report.now (O.taken out.new) }
    ensures front { IsFrontTaken (O.taken out.old) report.now (O.taken out.new) }
    ensures count { O.faults out.old ≤ O.faults out.new }
    ensures same { IsAnswer result → O.faults out.new ≡ O.faults out.old }
    ensures cause { result ≡ Status.WriteFault → Rose (O.faults out.old) (O.faults out.new) }
    ensures told { O.faults out.old < O.faults out.new → result ≡ Status.WriteFault }
{
    match out.put(report) {
        Ok(()) => status,
        Err(Failed) => Status::WriteFault,
    }
}
