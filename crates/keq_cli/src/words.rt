// The words of a command line.
ghost use Rattle.std.specs.Prelude.{◌≡◌, ◌≤◌, IfSome};
ghost use Rattle.std.specs.Option.{option_map};
ghost use Rattle.keq_cli.specs.Words.{asked, step_count_of};
ghost use Rattle.keq_cli.specs.Asked.{IsBounded, command_view};

// How many steps a run may take where the words don't say.
const USUAL_STEPS: u32 = 1000;

/// What is to be done with the texts of a command.
#[derive(Clone, Copy, Debug, PartialEq, Eq)]
pub enum Task {
    /// To judge the points, by runs to the next state of the cut of at most so many steps, from 1 to 10,000.
    Check { steps: u32 },
    /// To run a program by the first rules, for so many steps, from 1 to 10,000.
    Run { steps: u32 },
}

/// What the words of a command ask for.
#[derive(Clone, Copy, Debug)]
pub struct Command<'a> {
    /// The names of the files, in the order in which they are fetched.
    pub names: &'a [String],
    pub task: Task,
}

/// What the words ask for; None where they have none of the forms. It takes no memory.
pub fn parse_words<'a>(words: &'a [String]) -> Option<Command<'a>>
    ensures asked { option_map command_view result ≡ asked words.now }
    ensures steps { IfSome result (λ command. IsBounded command.task) }
{
    match words {
        [verb, _, _, _, steps] if verb.as_str() == "run" => Some(Command {
            names: &words[1..4],
            task: Task::Run {
                steps: parse_steps(steps.as_str())?,
            },
        }),
        [verb, _, _, _, _, _] if verb.as_str() == "check" => Some(Command {
            names: &words[1..6],
            task: Task::Check { steps: USUAL_STEPS },
        }),
        [verb, _, _, _, _, _, steps] if verb.as_str() == "check" => Some(Command {
            names: &words[1..6],
            task: Task::Check {
                steps: parse_steps(steps.as_str())?,
            },
        }),
        _ => None,
    }
}

// The number of one to five decimal digits, from 1 to 10,000. `parse` alone would take a plus in front.
fn parse_steps(word: &str) -> Option<u32>
    ensures value { result ≡ step_count_of word.now }
    ensures some { IfSome result (λ steps. (1 ≤ steps) × (steps ≤ 10000)) }
{
    if word.len() > 5 || word.starts_with('+') {
        return None;
    }
    let steps = word.parse::<u32>().ok()?;
    if (1..=10_000).contains(&steps) {
        Some(steps)
    } else {
        None
    }
}
