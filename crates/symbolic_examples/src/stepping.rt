//! Calls of `step` and `branches`, over any domain with variables.
ghost use Rattle.std.specs.Prelude.{All, IsTrue};
ghost use Rattle.data_value.specs.Nodes.{IsValuation};
ghost use Rattle.sort_term.specs.Problems.{IsProgram};
ghost use Rattle.symbolic_examples.specs.Ends.{EndsAtNodes, LeadsToNodes};

use crate::leaf_text::{or_nothing, put_leaves};
use crate::starts::{StartingPoint, start};
use crate::sweeping::{Sweep, byte};
use crate::valued::{Valued, put_term};
use data_value::Valuation;
use example_cases::{Failed, Texts, is_word, list, small};
use expr_pool::Pool;
use expr_tree::Trees;
use machine_examples::{loaded_program, loaded_semantics};
use node_examples::valuation;
use path_condition::begin;
use sexp_text::Form;
use shown_terms::Shown;
use sort_term::{Left, Program, RuleId, Semantics};
use std::alloc::{AllocError, Global};
use symbolic_step::{Next, step};
use unify::{Branch, branches};

/// What `step` answers, as it is asked.
pub(crate) fn steps(
    alloc: Global,
    texts: &Texts,
    domain: &Form,
    semantics: &Form,
    program: &Form,
    from: &Form,
    ask: &Form,
) -> Result<String, Failed> {
    let semantics: Semantics<Left> = loaded_semantics(alloc, texts, semantics)?;
    let program = loaded_program(alloc, texts, &semantics, program)?;
    let ask = list(ask)?;
    if is_word(domain, b"pool") {
        return stepped(
            alloc,
            &mut Pool::new(alloc)?,
            &semantics,
            &program,
            from,
            ask,
        );
    }
    if is_word(domain, b"trees") {
        return stepped(
            alloc,
            &mut Trees::new(alloc),
            &semantics,
            &program,
            from,
            ask,
        );
    }
    Err(Failed::NoCall)
}

fn stepped<D: Valued>(
    alloc: Global,
    d: &mut D,
    semantics: &Semantics<Left>,
    program: &Program<Left>,
    from: &Form,
    ask: &[Form],
) -> Result<String, Failed>
    requires { IsProgram semantics.now program.now }
{
    let StartingPoint { config, condition } = start(alloc, d, semantics, from)?;
    let path = begin(alloc, condition);
    let next = step(alloc, d, semantics, program, &config, &path)?;
    told(alloc, d, &next, ask)
}

fn told<D: Valued>(
    alloc: Global,
    d: &D,
    next: &Next<Left, D::Node>,
    ask: &[Form],
) -> Result<String, Failed>
    requires leaves { All (EndsAtNodes (D.look d.now)) next.now.leaves }
    requires stuck { IsTrue (D.look d.now next.now.stuck).valid }
{
    match ask {
        [kind] if is_word(kind, b"sweep") => sweep(alloc, d, next),
        [kind] if is_word(kind, b"leaves") => Ok(count(alloc, next.leaves.len())?),
        [kind, values @ ..] if is_word(kind, b"at") => {
            let valuation = valuation(alloc, d.sorts(), values)?;
            text_at(alloc, d, next, &valuation, true)
        }
        _ => Err(Failed::NoCall),
    }
}

fn count(alloc: Global, leaves: usize) -> Result<String, AllocError> {
    let mut out = Shown::new(alloc);
    out.place("", leaves)?;
    Ok(out.into_text())
}

// The answers at all values of one variable of 8 bits, each behind the first value that has it.
fn sweep<D: Valued>(alloc: Global, d: &D, next: &Next<Left, D::Node>) -> Result<String, Failed>
    requires leaves { All (EndsAtNodes (D.look d.now)) next.now.leaves }
    requires stuck { IsTrue (D.look d.now next.now.stuck).valid }
{
    let mut sweep = Sweep::new(alloc);
    for bits in 0..256u64 {
        let valuation = byte(alloc, d.sorts(), bits)?;
        sweep.add(bits, text_at(alloc, d, next, &valuation, false)?)?;
    }
    Ok(sweep.into_text())
}

// The leaves that hold, and whether the configuration is stuck.
fn text_at<D: Valued>(
    alloc: Global,
    d: &D,
    next: &Next<Left, D::Node>,
    valuation: &Valuation,
    with_states: bool,
) -> Result<String, Failed>
    requires leaves { All (EndsAtNodes (D.look d.now)) next.now.leaves }
    requires stuck { IsTrue (D.look d.now next.now.stuck).valid }
    requires fits { IsValuation (D.variables d.now) valuation.now }
{
    let mut out = Shown::new(alloc);
    let leaves = next.leaves.as_slice();
    put_leaves(&mut out, alloc, d, "", leaves, valuation, with_states)?;
    if d.is_true(alloc, &next.stuck, valuation)? {
        out.part("; ")?;
        out.put("stuck")?;
    }
    Ok(or_nothing(alloc, out.into_text())?)
}

/// What the branches of a rule lead to under some values.
pub(crate) fn branchings(
    alloc: Global,
    texts: &Texts,
    domain: &Form,
    semantics: &Form,
    program: &Form,
    asked: &[Form],
) -> Result<String, Failed> {
    let semantics: Semantics<Left> = loaded_semantics(alloc, texts, semantics)?;
    let program = loaded_program(alloc, texts, &semantics, program)?;
    if is_word(domain, b"pool") {
        return branched(alloc, &mut Pool::new(alloc)?, &semantics, &program, asked);
    }
    if is_word(domain, b"trees") {
        return branched(alloc, &mut Trees::new(alloc), &semantics, &program, asked);
    }
    Err(Failed::NoCall)
}

fn branched<D: Valued>(
    alloc: Global,
    d: &mut D,
    semantics: &Semantics<Left>,
    program: &Program<Left>,
    asked: &[Form],
) -> Result<String, Failed>
    requires { IsProgram semantics.now program.now }
{
    let [rule, from, values @ ..] = asked else {
        return Err(Failed::NoCall);
    };
    let rule = RuleId(small(rule)?);
    if semantics.rules().len() <= rule.0 {
        return Err(Failed::NoCall);
    }
    let StartingPoint { config, .. } = start(alloc, d, semantics, from)?;
    let found = branches(alloc, d, semantics, program, rule, &config)?;
    let valuation = valuation(alloc, d.sorts(), values)?;
    led_to(alloc, d, found.as_slice(), &valuation)
}

fn led_to<D: Valued>(
    alloc: Global,
    d: &D,
    branches: &[Branch<Left, D::Node>],
    valuation: &Valuation,
) -> Result<String, Failed>
    requires branches { All (LeadsToNodes (D.look d.now)) branches.now }
    requires fits { IsValuation (D.variables d.now) valuation.now }
{
    let mut out = Shown::new(alloc);
    for branch in branches {
        if d.is_true(alloc, &branch.condition, valuation)? {
            out.part("; ")?;
            put_term(&mut out, alloc, d, valuation, branch.result.term())?;
        }
    }
    Ok(or_nothing(alloc, out.into_text())?)
}
