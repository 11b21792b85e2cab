// Patterns against terms, by the variables that are bound so far.
ghost use Rattle.std.specs.Prelude.{◌≡◌, ◌<◌, ◌↔◌, IfOk, OnOk, IsTrue, IsFalse, IsSome, map, length, All};
ghost use Rattle.data_value.specs.declared.Value.TheVariants.{One};
ghost use Rattle.data_value.specs.Sorts.{is_scalar_sort};
ghost use Rattle.data_value.specs.Values.{scalar_sort, IsScalar};
ghost use Rattle.data_value.specs.Nodes.{Extends};
ghost use Rattle.sort_term.specs.declared.rule.Pattern.TheVariants.{Bind};
ghost use Rattle.sort_term.specs.Sorted.{pattern_sort, var_sort};
ghost use Rattle.sort_term.specs.Stands.{times, times_in};
ghost use Rattle.sort_term.specs.NodeTerms.{seen_term, seen_sort};
ghost use Rattle.data_value.specs.Truth.{IsCondition};
ghost use Rattle.unify.specs.Meets.{seen_matching, IsMatching, RebindsOnlyScalars, IsOtherScalar, AddsEquation, Answers, AnswersAll};
ghost use Rattle.unify.specs.Scopes.{scope_of, change_of};

use crate::binds::{Binds, Nodes};
use crate::copy::copy_term;
use crate::equations::add_equation;
use crate::plain::plain_node;
use data_value::conditions::equal;
use data_value::{Domain, Scalar, Value};
use no_memory::NoMemory;
use sort_term::{Pattern, Semantics, Side, Term, Vars};
use std::alloc::Global;

/// The variables that are bound so far, and the nodes of sort bool that have to be true.
#[derive(Drop)]
pub(crate) struct Matching<N> {
    pub(crate) binds: Binds<N>,
    pub(crate) equations: Nodes<N>,
}

/// Whether a pattern can be equal to a term: true where no constructor stands against another and no literal against a
/// known other scalar. Then the variables of the pattern that weren't bound are bound, and equations are added, by which
/// exactly those valuations remain that make the pattern equal to the term.
#[cycle(join)]
pub(crate) fn join<S: Side, D: Domain>(
    alloc: Global,
    d: &mut D,
    semantics: &Semantics<S>,
    vars: &Vars,
    pattern: &Pattern,
    term: &Term<D::Node>,
    matching: &mut Matching<D::Node>,
) -> Result<bool, NoMemory>
    requires pattern { IsSome (pattern_sort semantics.now.cons vars.now pattern.now) }
    requires term { seen_sort semantics.now.cons (seen_term (D.look d.old) term.now)
        ≡ pattern_sort semantics.now.cons vars.now pattern.now }
    requires matching { IsMatching semantics.now.cons vars.now (seen_matching (D.look d.old) matching.old) }
    requires repeats { RebindsOnlyScalars vars.now (seen_matching (D.look d.old) matching.old).binds (λ i. times i pattern.now) }
    ensures extends { Extends (D.look d.old) (D.look d.new) }
    ensures same_variables { D.variables d.new ≡ D.variables d.old }
    ensures answer { IfOk result
        (λ ok. Answers (scope_of semantics.now.cons vars.now (D.variables d.old)) pattern.now
        (seen_term (D.look d.old) term.now)
        (change_of (seen_matching (D.look d.old) matching.old) (seen_matching (D.look d.new) matching.new))
        ok) }
{
    match pattern {
        Pattern::Bind(variable) => Ok(bind(alloc, d, semantics, vars, *variable, term, matching)?),
        Pattern::Exact(scalar) => {
            let node = plain_node(term);
            Ok(equate_literal(alloc, d, *scalar, node, &mut matching.equations)?)
        }
        Pattern::Con(con, patterns) => match term {
            Term::Con(found, terms) => {
                if con.0 == found.0 {
                    Ok(join_all(
                        alloc,
                        d,
                        semantics,
                        vars,
                        patterns.as_slice(),
                        terms.as_slice(),
                        matching,
                    )?)
                } else {
                    Ok(false) // No valuation makes two constructors equal.
                }
            }
            Term::Plain(_) => unreachable!(),
        },
    }
}

// Whether patterns can be equal to as many terms, place by place.
#[cycle(join)]
fn join_all<S: Side, D: Domain>(
    alloc: Global,
    d: &mut D,
    semantics: &Semantics<S>,
    vars: &Vars,
    patterns: &[Pattern],
    terms: &[Term<D::Node>],
    matching: &mut Matching<D::Node>,
) -> Result<bool, NoMemory>
    requires patterns { All (λ p. IsSome (pattern_sort semantics.now.cons vars.now p)) patterns.now }
    requires terms { map (seen_sort semantics.now.cons) (map (seen_term (D.look d.old)) terms.now)
        ≡ map (pattern_sort semantics.now.cons vars.now) patterns.now }
    requires matching { IsMatching semantics.now.cons vars.now (seen_matching (D.look d.old) matching.old) }
    requires repeats { RebindsOnlyScalars vars.now (seen_matching (D.look d.old) matching.old).binds (λ i. times_in i patterns.now) }
    ensures extends { Extends (D.look d.old) (D.look d.new) }
    ensures same_variables { D.variables d.new ≡ D.variables d.old }
    ensures answer { IfOk result
        (λ ok. AnswersAll (scope_of semantics.now.cons vars.now (D.variables d.old)) patterns.now
        (map (seen_term (D.look d.old)) terms.now)
        (change_of (seen_matching (D.look d.old) matching.old) (seen_matching (D.look d.new) matching.new))
        ok) }
{
    for i in 0..patterns.len() {
        if !join(alloc, d, semantics, vars, &patterns[i], &terms[i], matching)? {
            return Ok(false);
        }
    }
    Ok(true)
}

// A variable against a term of its sort: the variable is bound, or the terms have to be equal.
fn bind<S: Side, D: Domain>(
    alloc: Global,
    d: &mut D,
    semantics: &Semantics<S>,
    vars: &Vars,
    variable: usize,
    term: &Term<D::Node>,
    matching: &mut Matching<D::Node>,
) -> Result<bool, NoMemory>
    requires within { variable < length vars.now }
    requires term { seen_sort semantics.now.cons (seen_term (D.look d.old) term.now) ≡ var_sort vars.now variable }
    requires matching { IsMatching semantics.now.cons vars.now (seen_matching (D.look d.old) matching.old) }
    requires repeats { RebindsOnlyScalars vars.now (seen_matching (D.look d.old) matching.old).binds (λ i. times i (Bind variable)) }
    ensures extends { Extends (D.look d.old) (D.look d.new) }
    ensures same_variables { D.variables d.new ≡ D.variables d.old }
    ensures answer { IfOk result
        (λ ok. Answers (scope_of semantics.now.cons vars.now (D.variables d.old)) (Bind variable)
        (seen_term (D.look d.old) term.now)
        (change_of (seen_matching (D.look d.old) matching.old) (seen_matching (D.look d.new) matching.new))
        ok) }
{
    match matching.binds.get(variable) {
        Some(Some(bound)) => {
            let copy = d.copy(plain_node(term))?;
            equate(alloc, d, plain_node(bound), copy, &mut matching.equations)?;
            Ok(true)
        }
        Some(None) => {
            let copy = copy_term(alloc, d, term)?;
            matching.binds.set(variable, Some(copy));
            Ok(true)
        }
        None => unreachable!(),
    }
}

// A literal against a node of its sort: the literal is the scalar as which the node is known, or they have to be equal.
pub(crate) fn equate_literal<D: Domain>(
    alloc: Global,
    d: &mut D,
    scalar: Scalar,
    node: &D::Node,
    equations: &mut Nodes<D::Node>,
) -> Result<bool, NoMemory>
    requires scalar { IsScalar scalar }
    requires node { IsTrue (D.look d.old node.now).valid }
    requires sort { (D.look d.old node.now).sort ≡ scalar_sort scalar }
    requires equations { All IsCondition (map (D.look d.old) equations.old) }
    ensures extends { Extends (D.look d.old) (D.look d.new) }
    ensures same_variables { D.variables d.new ≡ D.variables d.old }
    ensures apart { IfOk result (λ ok. IsFalse ok ↔ IsOtherScalar scalar (D.look d.old node.now)) }
    ensures equal { IfOk result
        (λ ok. IsTrue ok → AddsEquation (D.variables d.old) (map (D.look d.old) equations.old)
        (map (D.look d.new) equations.new) (λ v. (D.look d.old node.now).meaning v ≡ One scalar)) }
{
    match d.known(node) {
        Some(known) => Ok(known == scalar),
        None => {
            let literal = d.constant(&Value::One(scalar))?;
            equate(alloc, d, node, literal, equations)?;
            Ok(true) // They may be equal, and are where the equation is true.
        }
    }
}

// Adds the equation of two nodes that are truth values, or words of one width, unless it is known to be true.
pub(crate) fn equate<D: Domain>(
    alloc: Global,
    d: &mut D,
    node: &D::Node,
    other: D::Node,
    equations: &mut Nodes<D::Node>,
) -> Result<(), NoMemory>
    requires node { IsTrue (D.look d.old node.now).valid }
    requires other { IsTrue (D.look d.old other).valid }
    requires sorts { (D.look d.old other).sort ≡ (D.look d.old node.now).sort }
    requires scalar { IsTrue (is_scalar_sort (D.look d.old node.now).sort) }
    requires equations { All IsCondition (map (D.look d.old) equations.old) }
    ensures extends { Extends (D.look d.old) (D.look d.new) }
    ensures same_variables { D.variables d.new ≡ D.variables d.old }
    ensures equal { OnOk result
        (AddsEquation (D.variables d.old) (map (D.look d.old) equations.old)
        (map (D.look d.new) equations.new)
        (λ v. (D.look d.old node.now).meaning v ≡ (D.look d.old other).meaning v)) }
{
    let equation = equal(alloc, d, node, &other)?;
    Ok(add_equation(d, equation, equations)?)
}
