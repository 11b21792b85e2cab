//! Calls of `search_dropping`, where a case says what is dropped.
ghost use Rattle.std.specs.Prelude.{All};
ghost use Rattle.symbolic_examples.specs.Ends.{EndsAtNodes};

use crate::cut_system::CutSystem;
use crate::telling::told;
use cut_search::{Drops, NoMemory, Reach, search_dropping};
use data_value::Symbolic;
use example_cases::{Failed, is_word, small};
use node_examples::valuation;
use sexp_text::Form;
use shown_terms::Shown;
use sort_term::Left;
use std::alloc::{AllocError, Global};
use symbolic_examples::{StartingPoint, Valued, or_nothing, put_leaves, start};

// Drops the paths that certain questions are about.
#[derive(Drop)]
struct ListedQuestions {
    questions: Vec<usize>,
}

impl<D: Symbolic> Drops<D> for ListedQuestions {
    ghost Allows = { λ _ _. Unit {0} };

    ghost Keeps = { λ _ _. Unit {0} };

    fn drops(
        &mut self,
        _alloc: Global,
        _d: &mut D,
        answers: &[bool],
        _before: &D::Node,
        _condition: &D::Node,
    ) -> Result<bool, NoMemory> {
        Ok(self.questions.as_slice().contains(&answers.len()))
    }
}

/// What `search_dropping` finds where certain questions are answered with yes, as it is asked.
pub(crate) fn searched<D: Valued>(
    alloc: Global,
    d: &mut D,
    system: &CutSystem,
    from: &Form,
    steps: u32,
    questions: &[Form],
    ask: &[Form],
) -> Result<String, Failed> {
    let mut judge = read_questions(alloc, questions)?;
    let mut answers = Vec::new(alloc);
    let StartingPoint { config, condition } = start(alloc, d, &system.semantics, from)?;
    let reach = search_dropping(
        alloc,
        d,
        &mut judge,
        &mut answers,
        &system.semantics,
        &system.program,
        &system.cuts,
        &config,
        &condition,
        steps,
    )?;
    told_of_all(alloc, d, &reach, answers.as_slice(), ask)
}

fn read_questions(alloc: Global, forms: &[Form]) -> Result<ListedQuestions, Failed> {
    let mut questions = Vec::new(alloc);
    for form in forms {
        questions.push(small(form)?)?;
    }
    Ok(ListedQuestions { questions })
}

fn told_of_all<D: Valued>(
    alloc: Global,
    d: &D,
    reach: &Reach<Left, D::Node>,
    answers: &[bool],
    ask: &[Form],
) -> Result<String, Failed>
    requires met { All (EndsAtNodes (D.look d.now)) reach.now.met }
    requires long { All (EndsAtNodes (D.look d.now)) reach.now.long }
    requires halted { All (EndsAtNodes (D.look d.now)) reach.now.halted }
    requires dropped { All (EndsAtNodes (D.look d.now)) reach.now.dropped }
{
    match ask {
        [kind] if is_word(kind, b"answers") => Ok(shown_answers(alloc, answers)?),
        [kind, values @ ..] if is_word(kind, b"dropped") => {
            let valuation = valuation(alloc, d.sorts(), values)?;
            let mut out = Shown::new(alloc);
            let dropped = reach.dropped.as_slice();
            put_leaves(&mut out, alloc, d, "dropped ", dropped, &valuation, true)?;
            Ok(or_nothing(alloc, out.into_text())?)
        }
        _ => told(alloc, d, reach, ask),
    }
}

fn shown_answers(alloc: Global, answers: &[bool]) -> Result<String, AllocError> {
    let mut out = Shown::new(alloc);
    for answer in answers {
        out.part(" ")?;
        out.put(if *answer { "yes" } else { "no" })?;
    }
    or_nothing(alloc, out.into_text())
}
