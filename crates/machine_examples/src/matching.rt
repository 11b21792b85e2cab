//! Calls of `unify`, `evaluate` and `branches`, where nodes are values: `(meet SEMANTICS RULE STATE)`,
//! `(evaluate SEMANTICS RULE STATE)` and `(branches SEMANTICS PROGRAM RULE STATE)`, of texts that load and a rule by its place.
//! `meet` answers what each variable of the rule is bound to where its head is the state, with `-` for none, and behind a `;` the
//! value of each equation; `evaluate` the value of the rule's result there; `branches` the condition and the state of each branch.
ghost use Rattle.std.specs.Prelude.{◌≡◌, ℕ, [], ◌∷◌, ◌<◌, IfOk, OnOk, IsSome, IsTrue};
ghost use Rattle.data_value.specs.Ground.{ground_seen};
ghost use Rattle.sort_term.specs.Sorted.{pattern_sort};
ghost use Rattle.sort_term.specs.Stands.{times};
ghost use Rattle.sort_term.specs.Rules.{RepeatsOnlyScalars};
ghost use Rattle.sort_term.specs.NodeTerms.{seen_term, seen_sort};
ghost use Rattle.unify.specs.Binds.{seen_binds, IsBound, AreBinds};
ghost use Rattle.unify.specs.Meets.{IsMeet};
ghost use Rattle.unify.specs.Scopes.{scope_of};

use crate::loaded::{Machine, loaded_machine, loaded_semantics, loaded_state};
use data_value::{Ground, Value};
use example_cases::{Failed, Texts, small};
use sexp_text::Form;
use shown_terms::{Shown, term, value};
use sort_term::{
    Left, Rule, RuleId, Semantics, Sort, Term, all_stand_in, ground_terms_are_trees, is_expr_of,
    is_pattern_of, is_tree_of, repeats_only_scalars,
};
use std::alloc::{AllocError, Global};
use unify::{Binds, Branch, Meet, Nodes, branches, evaluate, unify};

/// What the call with this name answers; None where there is no such call.
pub(crate) fn answer(
    alloc: Global,
    texts: &Texts,
    name: &[u8],
    arguments: &[Form],
) -> Result<Option<String>, Failed> {
    let answer = match arguments {
        [semantics, rule, state] if name == b"meet".as_slice() => {
            meet_answer(alloc, texts, semantics, rule, state)?
        }
        [semantics, rule, state] if name == b"evaluate".as_slice() => {
            evaluate_answer(alloc, texts, semantics, rule, state)?
        }
        [semantics, program, rule, state] if name == b"branches".as_slice() => {
            branches_answer(alloc, texts, semantics, program, rule, state)?
        }
        _ => return Ok(None),
    };
    Ok(Some(answer))
}

fn meet_answer(
    alloc: Global,
    texts: &Texts,
    semantics: &Form,
    rule: &Form,
    state: &Form,
) -> Result<String, Failed> {
    let semantics = loaded_semantics(alloc, texts, semantics)?;
    let text = meet_of(alloc, texts, &semantics, rule, state);
    drop(semantics);
    text
}

fn meet_of(
    alloc: Global,
    texts: &Texts,
    semantics: &Semantics<Left>,
    rule: &Form,
    state: &Form,
) -> Result<String, Failed> {
    let rule = rule_at(semantics, rule)?;
    let state = loaded_state(alloc, texts, semantics, state)?;
    let found = met(alloc, semantics, rule, state.term());
    drop(state);
    match found? {
        Meet::Apart => apart(alloc),
        Meet::Meets { binds, equations } => {
            let text = shown_meet(alloc, &binds, &equations);
            drop((binds, equations));
            text
        }
    }
}

fn apart(alloc: Global) -> Result<String, Failed> {
    Ok(String::from_str(alloc, "apart")?)
}

fn rule_at<'a>(semantics: &'a Semantics<Left>, place: &Form) -> Result<&'a Rule, Failed> {
    match semantics.rules().get(small(place)?) {
        Some(rule) => Ok(rule),
        None => Err(Failed::NoCall),
    }
}

// What makes the head of a rule equal to a tree.
fn met(
    alloc: Global,
    semantics: &Semantics<Left>,
    rule: &Rule,
    tree: &Term<Value>,
) -> Result<Meet<Value>, Failed>
    ensures { IfOk result
        (IsMeet (scope_of semantics.now.cons rule.now.vars []) ground_seen rule.now.head (seen_term ground_seen tree.now)) }
{
    expect_states(semantics, rule, tree)?;
    let mut ground = Ground::new(alloc);
    Ok(unify(alloc, &mut ground, semantics, &rule.vars, &rule.head, tree)?)
}

// The head and the tree are of the sort of the states, and what stands twice in the head is scalar.
fn expect_states(semantics: &Semantics<Left>, rule: &Rule, tree: &Term<Value>) -> Result<(), Failed>
    ensures head { OnOk result (IsSome (pattern_sort semantics.now.cons rule.now.vars rule.now.head)) }
    ensures tree { OnOk result
        (seen_sort semantics.now.cons (seen_term ground_seen tree.now)
        ≡ pattern_sort semantics.now.cons rule.now.vars rule.now.head) }
    ensures repeats { OnOk result (RepeatsOnlyScalars rule.now.vars (rule.now.head ∷ [])) }
{
    ground_terms_are_trees();
    let cons = semantics.cons().as_slice();
    let vars = rule.vars.as_slice();
    let sort = Sort::Own(semantics.config());
    if !is_pattern_of(cons, vars, sort, &rule.head) {
        return Err(Failed::NoCall);
    }
    if !is_tree_of(cons, sort, tree) {
        return Err(Failed::NoCall);
    }
    if !repeats_only_scalars(vars, &rule.head, &[]) {
        return Err(Failed::NoCall);
    }
    Ok(())
}

fn shown_meet(
    alloc: Global,
    binds: &Binds<Value>,
    equations: &Nodes<Value>,
) -> Result<String, Failed> {
    let mut out = Shown::new(alloc);
    put_binds(&mut out, binds)?;
    for equation in equations.as_slice() {
        out.put("; ")?;
        value(&mut out, equation)?;
    }
    Ok(out.into_text())
}

fn put_binds(out: &mut Shown, binds: &Binds<Value>) -> Result<(), AllocError> {
    if binds.is_empty() {
        return out.put("no variable");
    }
    for bind in binds.as_slice() {
        out.part(" ")?;
        match bind {
            Some(tree) => term(out, tree)?,
            None => out.put("-")?,
        }
    }
    Ok(())
}

fn evaluate_answer(
    alloc: Global,
    texts: &Texts,
    semantics: &Form,
    rule: &Form,
    state: &Form,
) -> Result<String, Failed> {
    let semantics = loaded_semantics(alloc, texts, semantics)?;
    let text = value_of(alloc, texts, &semantics, rule, state);
    drop(semantics);
    text
}

fn value_of(
    alloc: Global,
    texts: &Texts,
    semantics: &Semantics<Left>,
    rule: &Form,
    state: &Form,
) -> Result<String, Failed> {
    let rule = rule_at(semantics, rule)?;
    let state = loaded_state(alloc, texts, semantics, state)?;
    let text = value_at(alloc, semantics, rule, state.term());
    drop(state);
    text
}

fn value_at(
    alloc: Global,
    semantics: &Semantics<Left>,
    rule: &Rule,
    tree: &Term<Value>,
) -> Result<String, Failed> {
    match met(alloc, semantics, rule, tree)? {
        Meet::Apart => apart(alloc),
        Meet::Meets { binds, equations } => {
            let text = evaluated(alloc, semantics, rule, &binds);
            drop((binds, equations));
            text
        }
    }
}

// The result of a rule whose head makes these binds. The head binds each variable.
fn evaluated(
    alloc: Global,
    semantics: &Semantics<Left>,
    rule: &Rule,
    binds: &Binds<Value>,
) -> Result<String, Failed>
    requires lawful { AreBinds semantics.now.cons rule.now.vars (seen_binds ground_seen binds.now) }
    requires bound { (i : ℕ) → 0 < times i rule.now.head → IsBound (seen_binds ground_seen binds.now) i }
{
    let cons = semantics.cons().as_slice();
    let vars = rule.vars.as_slice();
    if !is_expr_of(cons, vars, Sort::Own(semantics.config()), &rule.result) {
        return Err(Failed::NoCall);
    }
    if !all_stand_in(vars, &rule.head, &[]) {
        return Err(Failed::NoCall);
    }
    let mut ground = Ground::new(alloc);
    let tree = evaluate(alloc, &mut ground, semantics, &rule.result, binds)?;
    let mut out = Shown::new(alloc);
    term(&mut out, &tree)?;
    Ok(out.into_text())
}

fn branches_answer(
    alloc: Global,
    texts: &Texts,
    semantics: &Form,
    program: &Form,
    rule: &Form,
    state: &Form,
) -> Result<String, Failed> {
    let place = small(rule)?;
    let machine = loaded_machine(alloc, texts, semantics, program, state)?;
    let text = branches_of(alloc, &machine, place);
    drop(machine);
    text
}

fn branches_of(alloc: Global, machine: &Machine, place: usize) -> Result<String, Failed> {
    if machine.semantics.rules().len() <= place {
        return Err(Failed::NoCall);
    }
    ground_terms_are_trees();
    let mut ground = Ground::new(alloc);
    let found = branches(
        alloc,
        &mut ground,
        &machine.semantics,
        &machine.program,
        RuleId(place),
        &machine.state,
    )?;
    let text = shown_branches(alloc, found.as_slice());
    drop(found);
    Ok(text?)
}

fn shown_branches(alloc: Global, branches: &[Branch<Left, Value>]) -> Result<String, AllocError> {
    if branches.is_empty() {
        return String::from_str(alloc, "none");
    }
    let mut out = Shown::new(alloc);
    for branch in branches {
        out.part("; ")?;
        value(&mut out, &branch.condition)?;
        out.put(" ")?;
        term(&mut out, branch.result.term())?;
    }
    Ok(out.into_text())
}
