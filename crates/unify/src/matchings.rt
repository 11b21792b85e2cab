// Copies of matchings, and matchings that go on from one.
ghost use Rattle.std.specs.Prelude.{◌≡◌, ⊤, IfOk, IsTrue, IsSome, MatchOption, All, map, option_map};
ghost use Rattle.data_value.specs.Nodes.{Extends, AllValid};
ghost use Rattle.sort_term.specs.Sorted.{pattern_sort};
ghost use Rattle.sort_term.specs.Stands.{times};
ghost use Rattle.sort_term.specs.NodeTerms.{seen_term, seen_sort, is_valid_term};
ghost use Rattle.unify.specs.Binds.{seen_binds, AreValid};
ghost use Rattle.data_value.specs.Truth.{IsCondition};
ghost use Rattle.unify.specs.Meets.{seen_matching, IsMatching, RebindsOnlyScalars};
ghost use Rattle.unify.specs.Matchings.{seen_matchings, IsOfNodes, JoinsPattern, Supposes};
ghost use Rattle.unify.specs.Scopes.{scope_of};

use crate::binds::{Binds, Nodes};
use crate::copy::copy_term;
use crate::equations::{add_equation, are_dead, is_known_as};
use crate::matching::{Matching, join};
use data_value::Domain;
use no_memory::NoMemory;
use sort_term::{Pattern, Semantics, Side, Term, Vars};
use sqlite_items::Items;
use std::alloc::Global;

/// Matchings of one rule. A valuation that fulfils one of them is looked for.
pub(crate) type Matchings<N> = Items<Matching<N>>;

/// A matching that is the same in all that it is.
pub(crate) fn copy_matching<D: Domain>(
    alloc: Global,
    d: &D,
    matching: &Matching<D::Node>,
) -> Result<Matching<D::Node>, NoMemory>
    requires { IsOfNodes (seen_matching (D.look d.now) matching.now) }
    ensures { IfOk result (λ m. seen_matching (D.look d.now) m ≡ seen_matching (D.look d.now) matching.now) }
{
    let binds = copy_binds(alloc, d, matching.binds.as_slice())?;
    let equations = copy_nodes(alloc, d, matching.equations.as_slice())?;
    Ok(Matching { binds, equations })
}

fn copy_binds<D: Domain>(
    alloc: Global,
    d: &D,
    binds: &[Option<Term<D::Node>>],
) -> Result<Binds<D::Node>, NoMemory>
    requires { AreValid (seen_binds (D.look d.now) binds.now) }
    ensures { IfOk result (λ copies. seen_binds (D.look d.now) copies ≡ seen_binds (D.look d.now) binds.now) }
{
    let mut copies = Items::new(alloc);
    for bind in binds {
        let copy = copy_bind(alloc, d, bind)?;
        copies.push(copy)?;
    }
    Ok(copies)
}

fn copy_bind<D: Domain>(
    alloc: Global,
    d: &D,
    bind: &Option<Term<D::Node>>,
) -> Result<Option<Term<D::Node>>, NoMemory>
    requires { MatchOption bind.now ⊤ (λ t. IsTrue (is_valid_term (seen_term (D.look d.now) t))) }
    ensures { IfOk result (λ copy. option_map (seen_term (D.look d.now)) copy ≡ option_map (seen_term (D.look d.now)) bind.now) }
{
    match bind {
        Some(term) => Ok(Some(copy_term(alloc, d, term)?)),
        None => Ok(None),
    }
}

fn copy_nodes<D: Domain>(
    alloc: Global,
    d: &D,
    nodes: &[D::Node],
) -> Result<Nodes<D::Node>, NoMemory>
    requires { AllValid (D.look d.now) nodes.now }
    ensures { IfOk result (λ copies. map (D.look d.now) copies ≡ map (D.look d.now) nodes.now) }
{
    let mut copies = Items::new(alloc);
    for node in nodes {
        let copy = d.copy(node)?;
        copies.push(copy)?;
    }
    Ok(copies)
}

/// The matching in which moreover a pattern is equal to a term; none where they are apart, or where an equation is known to
/// be false.
pub(crate) fn joined<S: Side, D: Domain>(
    alloc: Global,
    d: &mut D,
    semantics: &Semantics<S>,
    vars: &Vars,
    pattern: &Pattern,
    term: &Term<D::Node>,
    matching: Matching<D::Node>,
) -> Result<Matchings<D::Node>, NoMemory>
    requires pattern { IsSome (pattern_sort semantics.now.cons vars.now pattern.now) }
    requires term { seen_sort semantics.now.cons (seen_term (D.look d.old) term.now)
        ≡ pattern_sort semantics.now.cons vars.now pattern.now }
    requires matching { IsMatching semantics.now.cons vars.now (seen_matching (D.look d.old) matching) }
    requires repeats { RebindsOnlyScalars vars.now (seen_matching (D.look d.old) matching).binds (λ i. times i pattern.now) }
    ensures extends { Extends (D.look d.old) (D.look d.new) }
    ensures same_variables { D.variables d.new ≡ D.variables d.old }
    ensures matchings { IfOk result
        (λ ms. JoinsPattern (scope_of semantics.now.cons vars.now (D.variables d.old)) pattern.now
        (seen_term (D.look d.old) term.now) (seen_matching (D.look d.old) matching)
        (seen_matchings (D.look d.new) ms)) }
{
    let mut more = matching;
    if !join(alloc, d, semantics, vars, pattern, term, &mut more)? {
        return Ok(Items::new(alloc));
    }
    if are_dead(d, more.equations.as_slice()) {
        return Ok(Items::new(alloc));
    }
    let mut matchings = Items::new(alloc);
    matchings.push(more)?;
    Ok(matchings)
}

/// The matching in which moreover a node is true; none where the node is known to be false.
pub(crate) fn supposed<D: Domain>(
    alloc: Global,
    d: &D,
    node: &D::Node,
    matching: &Matching<D::Node>,
) -> Result<Option<Matching<D::Node>>, NoMemory>
    requires node { IsCondition (D.look d.now node.now) }
    requires matching { IsOfNodes (seen_matching (D.look d.now) matching.now) }
    ensures { IfOk result (λ more. Supposes (D.look d.now) (D.look d.now node.now) (seen_matching (D.look d.now) matching.now) more) }
{
    if is_known_as(d, node, false) {
        return Ok(None);
    }
    let mut more = copy_matching(alloc, d, matching)?;
    add_equation(d, d.copy(node)?, &mut more.equations)?;
    Ok(Some(more))
}
