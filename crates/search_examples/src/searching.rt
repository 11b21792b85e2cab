//! Calls of the searches, over any domain with variables.
use crate::cut_system::{CutSystem, loaded_cut_system};
use crate::dropping;
use crate::telling::told;
use cut_search::search;
use example_cases::{Failed, Texts, is_word, list};
use expr_pool::Pool;
use expr_tree::Trees;
use machine_examples::step_count;
use sexp_text::Form;
use std::alloc::Global;
use symbolic_examples::{StartingPoint, Valued, start};

/// What `search` finds, or `search_dropping`, as it is asked.
pub(crate) fn answer(
    alloc: Global,
    texts: &Texts,
    domain: &Form,
    semantics: &Form,
    program: &Form,
    points: &Form,
    asked: &[Form],
) -> Result<String, Failed> {
    let system = loaded_cut_system(alloc, texts, semantics, program, points)?;
    let text = if is_word(domain, b"pool") {
        searched(alloc, &mut Pool::new(alloc)?, &system, asked)
    } else if is_word(domain, b"trees") {
        searched(alloc, &mut Trees::new(alloc), &system, asked)
    } else {
        Err(Failed::NoCall)
    };
    drop(system);
    text
}

fn searched<D: Valued>(
    alloc: Global,
    d: &mut D,
    system: &CutSystem,
    asked: &[Form],
) -> Result<String, Failed> {
    match asked {
        [from, steps, ask] => found(alloc, d, system, from, step_count(steps)?, list(ask)?),
        [from, steps, questions, ask] => {
            let (steps, questions) = (step_count(steps)?, list(questions)?);
            dropping::searched(alloc, d, system, from, steps, questions, list(ask)?)
        }
        _ => Err(Failed::NoCall),
    }
}

fn found<D: Valued>(
    alloc: Global,
    d: &mut D,
    system: &CutSystem,
    from: &Form,
    steps: u32,
    ask: &[Form],
) -> Result<String, Failed> {
    let StartingPoint { config, condition } = start(alloc, d, &system.semantics, from)?;
    let reach = search(
        alloc,
        d,
        &system.semantics,
        &system.program,
        &system.cuts,
        &config,
        &condition,
        steps,
    )?;
    told(alloc, d, &reach, ask)
}
