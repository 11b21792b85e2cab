//! Where a point relates what two configurations mean.
ghost use Rattle.std.specs.Prelude.{◌≡◌, ◌⊎◌, ◌<◌, All, IfOk, MatchOption, Some, map, length, option_map};
ghost use Rattle.data_value.specs.Nodes.{Extends};
ghost use Rattle.data_value.specs.Truth.{IsCondition};
ghost use Rattle.sort_term.specs.declared.points.Point.{Point as PointOf};
ghost use Rattle.sort_term.specs.declared.term.Term.TheVariants.{Plain as PlainOf};
ghost use Rattle.sort_term.specs.Tree.{value};
ghost use Rattle.sort_term.specs.Problems.{IsPointOf};
ghost use Rattle.sort_term.specs.Relation.{IsPoint};
ghost use Rattle.sort_term.specs.NodeTerms.{seen_term, tree_of};
ghost use Rattle.unify.specs.Binds.{seen_binds};
ghost use Rattle.unify.specs.Branches.{IsConfiguration};
ghost use Rattle.pair_match.specs.Clash.{ClashSomewhere};
ghost use Rattle.pair_match.specs.Bound.{AreAllBound, IsBoundToNode, bound_to};
ghost use Rattle.pair_match.specs.Sameness.{nothing, seen_sameness, AddsWhere};
ghost use Rattle.pair_match.specs.Matches.{IsMatch};
ghost use Rattle.pair_match.specs.Related.{IsDetermined, IsTestOf};

use crate::comparing::compare;
use crate::determining::determine;
use crate::sameness::Sameness;
use cut_cover::all_hold;
use data_value::conditions::{all, both};
use data_value::{Domain, Symbolic};
use no_memory::NoMemory;
use probe_keys::MapPairs;
use sort_term::{Config, Left, Point, Problem, Right, Term};
use sqlite_items::Items;
use std::alloc::Global;
use unify::{Binds, Nodes, unbound};

/// Where a point relates two configurations.
#[derive(Drop)]
pub enum Match<N> {
    /// Nowhere: at some place of the point's terms a constructor stands against another constructor.
    Apart,
    /// Where a test is true and some maps are equal.
    When {
        /// For each variable of the point, in order, what it then is.
        binds: Nodes<N>,
        /// A node of sort bool.
        test: N,
        /// Pairs of maps that have to be equal.
        maps: MapPairs<N>,
    },
}

/// Where a point of a problem, given by its number, relates what two configurations mean.
///
/// `Apart` comes exactly where at some place of the point's terms a constructor stands against another constructor in a
/// configuration; then the point relates them under no valuation. Otherwise, under every valuation of the domain's variables, the
/// point relates them exactly where the test is true and the maps of each pair are equal, and the values of the point's variables
/// are those of `binds`. The only error is want of memory.
pub fn matches<D: Symbolic>(
    alloc: Global,
    d: &mut D,
    problem: &Problem,
    point: usize,
    left: &Config<Left, D::Node>,
    right: &Config<Right, D::Node>,
) -> Result<Match<D::Node>, NoMemory>
    requires there { point < length problem.now.points.points }
    requires left { IsConfiguration problem.now.left (seen_term (D.look d.old) left.now.term) }
    requires right { IsConfiguration problem.now.right (seen_term (D.look d.old) right.now.term) }
    ensures extends { Extends (D.look d.old) (D.look d.new) }
    ensures same_variables { D.variables d.new ≡ D.variables d.old }
    ensures matched { IfOk result
        (λ m. (p : PointOf) → IsPoint problem.now point p →
        IsMatch (D.variables d.old) problem.now p (seen_term (D.look d.old) left.now.term) (seen_term (D.look d.old) right.now.term)
        (D.look d.new) m) }
{
    let point = &problem.points.points.as_slice()[point];
    match determined(alloc, d, problem, point, left.term(), right.term())? {
        None => Ok(Match::Apart),
        Some(binds) => Ok(matched(alloc, d, problem, point, left.term(), right.term(), &binds)?),
    }
}

// What the variables of a point are where it relates two configurations. Each is a direct argument of a constructor of one of the
// terms, so the configurations determine it. None where a constructor stands against another one.
fn determined<D: Domain>(
    alloc: Global,
    d: &D,
    problem: &Problem,
    point: &Point,
    left: &Term<D::Node>,
    right: &Term<D::Node>,
) -> Result<Option<Binds<D::Node>>, NoMemory>
    requires point { IsPointOf problem.now.left problem.now.right point.now }
    requires left { IsConfiguration problem.now.left (seen_term (D.look d.now) left.now) }
    requires right { IsConfiguration problem.now.right (seen_term (D.look d.now) right.now) }
    ensures { IfOk result
        (λ o. MatchOption o
        (ClashSomewhere point.now.left (seen_term (D.look d.now) left.now) ⊎ ClashSomewhere point.now.right (seen_term (D.look d.now) right.now))
        (λ binds. IsDetermined point.now (seen_term (D.look d.now) left.now) (seen_term (D.look d.now) right.now) (seen_binds (D.look d.now) binds))) }
{
    let mut binds = unbound(alloc, point.vars.len())?;
    if !determine(
        alloc,
        d,
        &problem.left,
        &point.vars,
        &point.left,
        left,
        &mut binds,
    )? {
        return Ok(None);
    }
    if !determine(
        alloc,
        d,
        &problem.right,
        &point.vars,
        &point.right,
        right,
        &mut binds,
    )? {
        return Ok(None);
    }
    Ok(Some(binds))
}

// Where a point relates two configurations that determine its variables.
fn matched<D: Symbolic>(
    alloc: Global,
    d: &mut D,
    problem: &Problem,
    point: &Point,
    left: &Term<D::Node>,
    right: &Term<D::Node>,
    binds: &Binds<D::Node>,
) -> Result<Match<D::Node>, NoMemory>
    requires point { IsPointOf problem.now.left problem.now.right point.now }
    requires left { IsConfiguration problem.now.left (seen_term (D.look d.old) left.now) }
    requires right { IsConfiguration problem.now.right (seen_term (D.look d.old) right.now) }
    requires determined { IsDetermined point.now (seen_term (D.look d.old) left.now) (seen_term (D.look d.old) right.now)
        (seen_binds (D.look d.old) binds.now) }
    ensures extends { Extends (D.look d.old) (D.look d.new) }
    ensures same_variables { D.variables d.new ≡ D.variables d.old }
    ensures matched { IfOk result
        (IsMatch (D.variables d.old) problem.now point.now (seen_term (D.look d.old) left.now) (seen_term (D.look d.old) right.now)
        (D.look d.new)) }
{
    let Sameness { equations, maps } = compared(alloc, d, problem, point, left, right, binds)?;
    let test = tested(alloc, d, problem, point, binds, equations.as_slice())?;
    let binds = bound_nodes(alloc, d, binds)?;
    Ok(Match::When { binds, test, maps })
}

// What has to be true for both terms of a point to have the values that two configurations mean.
fn compared<D: Symbolic>(
    alloc: Global,
    d: &mut D,
    problem: &Problem,
    point: &Point,
    left: &Term<D::Node>,
    right: &Term<D::Node>,
    binds: &Binds<D::Node>,
) -> Result<Sameness<D::Node>, NoMemory>
    requires point { IsPointOf problem.now.left problem.now.right point.now }
    requires left { IsConfiguration problem.now.left (seen_term (D.look d.old) left.now) }
    requires right { IsConfiguration problem.now.right (seen_term (D.look d.old) right.now) }
    requires determined { IsDetermined point.now (seen_term (D.look d.old) left.now) (seen_term (D.look d.old) right.now)
        (seen_binds (D.look d.old) binds.now) }
    ensures extends { Extends (D.look d.old) (D.look d.new) }
    ensures same_variables { D.variables d.new ≡ D.variables d.old }
    ensures compared { IfOk result
        (λ s. AddsWhere (D.variables d.old) (seen_binds (D.look d.old) binds.now) nothing (seen_sameness (D.look d.new) s)
        (λ v w. (value w point.now.left ≡ tree_of v (seen_term (D.look d.old) left.now))
        × (value w point.now.right ≡ tree_of v (seen_term (D.look d.old) right.now)))) }
{
    let mut sameness = Sameness {
        equations: Items::new(alloc),
        maps: Items::new(alloc),
    };
    compare(
        alloc,
        d,
        &problem.left,
        &point.left,
        left,
        binds,
        &mut sameness,
    )?;
    compare(
        alloc,
        d,
        &problem.right,
        &point.right,
        right,
        binds,
        &mut sameness,
    )?;
    Ok(sameness)
}

// Where equations and the conditions of a point are true.
fn tested<D: Domain>(
    alloc: Global,
    d: &mut D,
    problem: &Problem,
    point: &Point,
    binds: &Binds<D::Node>,
    equations: &[D::Node],
) -> Result<D::Node, NoMemory>
    requires point { IsPointOf problem.now.left problem.now.right point.now }
    requires bound { AreAllBound point.now.vars (seen_binds (D.look d.old) binds.now) }
    requires equations { All IsCondition (map (D.look d.old) equations.now) }
    ensures extends { Extends (D.look d.old) (D.look d.new) }
    ensures same_variables { D.variables d.new ≡ D.variables d.old }
    ensures test { IfOk result
        (λ n. IsTestOf (seen_binds (D.look d.old) binds.now) (map (D.look d.old) equations.now) point.now.whens (D.look d.new n)) }
{
    let equal = all(alloc, d, equations)?;
    let holding = all_hold(alloc, d, &problem.left, point.whens.as_slice(), binds)?;
    Ok(both(alloc, d, &equal, &holding)?)
}

// The nodes that variables are bound to.
fn bound_nodes<D: Domain>(
    alloc: Global,
    d: &D,
    binds: &Binds<D::Node>,
) -> Result<Nodes<D::Node>, NoMemory>
    requires { All IsBoundToNode (seen_binds (D.look d.now) binds.now) }
    ensures { IfOk result (λ nodes. seen_binds (D.look d.now) binds.now ≡ bound_to (map (D.look d.now) nodes)) }
{
    let mut nodes = Items::new(alloc);
    for bound in binds.as_slice() {
        let node = bound_node(d, bound)?;
        nodes.push(node)?;
    }
    Ok(nodes)
}

// The node that a variable is bound to.
fn bound_node<D: Domain>(d: &D, bound: &Option<Term<D::Node>>) -> Result<D::Node, NoMemory>
    requires { IsBoundToNode (option_map (seen_term (D.look d.now)) bound.now) }
    ensures { IfOk result (λ n. option_map (seen_term (D.look d.now)) bound.now ≡ Some (PlainOf (D.look d.now n))) }
{
    match bound {
        Some(Term::Plain(node)) => Ok(d.copy(node)?),
        Some(Term::Con(..)) => unreachable!(),
        None => unreachable!(),
    }
}
