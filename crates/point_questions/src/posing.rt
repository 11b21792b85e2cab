//! A point over the variables of a domain.
ghost use Rattle.std.specs.Prelude.{◌≡◌, [], ◌∷◌, ◌++◌, length, IfOk, IsTrue, OnOk};
ghost use Rattle.data_value.specs.declared.DataSort.{DataSort as DataSortOf};
ghost use Rattle.data_value.specs.Nodes.{Extends};
ghost use Rattle.data_value.specs.Views.{IsVariable};
ghost use Rattle.sort_term.specs.declared.term.Sort.TheVariants.{Plain as PlainSort};
ghost use Rattle.sort_term.specs.Signature.{is_plain, AreVars};
ghost use Rattle.sort_term.specs.Problems.{IsPointOf};
ghost use Rattle.unify.specs.Binds.{seen_binds};
ghost use Rattle.point_questions.specs.Posed.{seen_posed, AreFresh, IsPosed};

use cut_cover::all_hold;
use data_value::Symbolic;
use no_memory::NoMemory;
use sort_term::{Config, Left, Point, Problem, Right, Sort, Term, Var};
use sqlite_items::Items;
use std::alloc::Global;
use unify::{Binds, evaluate};

/// A point over the variables of a domain, one for each of the point's, in their order.
#[derive(Drop)]
pub struct PosedPoint<N> {
    /// Where the point's conditions are true: a node of sort bool.
    pub condition: N,
    /// The left term.
    pub left: Config<Left, N>,
    /// The right term.
    pub right: Config<Right, N>,
}

/// A point over fresh variables of a domain that has none yet. The valuations of the variables that make the condition true are the
/// point's: a pair of states is related by the point exactly where the configurations mean it under such a valuation. The only error is
/// want of memory.
pub fn posed<D: Symbolic>(
    alloc: Global,
    d: &mut D,
    problem: &Problem,
    point: &Point,
) -> Result<PosedPoint<D::Node>, NoMemory>
    requires none { D.variables d.old ≡ [] }
    requires point { IsPointOf problem.now.left problem.now.right point.now }
    ensures extends { Extends (D.look d.old) (D.look d.new) }
    ensures posed { IfOk result (λ x. IsPosed (D.variables d.new) problem.now point.now (seen_posed (D.look d.new) x)) }
{
    let binds = fresh_binds(alloc, d, point.vars.as_slice())?;
    Ok(over_binds(alloc, d, problem, point, &binds)?)
}

// A fresh variable for each of these, which are of data sorts.
fn fresh_binds<D: Symbolic>(
    alloc: Global,
    d: &mut D,
    vars: &[Var],
) -> Result<Binds<D::Node>, NoMemory>
    requires none { D.variables d.old ≡ [] }
    requires plain { AreVars is_plain vars.now }
    ensures extends { Extends (D.look d.old) (D.look d.new) }
    ensures fresh { IfOk result (λ binds. AreFresh vars.now (D.variables d.new) (seen_binds (D.look d.new) binds)) }
{
    let mut binds = Items::new(alloc);
    for var in vars {
        let node = fresh_node(d, var)?;
        binds.push(Some(Term::Plain(node)))?;
    }
    Ok(binds)
}

// A fresh variable for one of a data sort, and the node that means it.
fn fresh_node<D: Symbolic>(d: &mut D, var: &Var) -> Result<D::Node, NoMemory>
    requires { IsTrue (is_plain var.now.sort) }
    ensures extends { Extends (D.look d.old) (D.look d.new) }
    ensures appended { OnOk result ((s : DataSortOf) × (var.now.sort ≡ PlainSort s) × (D.variables d.new ≡ D.variables d.old ++ s ∷ [])) }
    ensures variable { IfOk result (λ n. IsVariable (D.look d.new) (D.variables d.new) (length (D.variables d.old)) n) }
{
    match var.sort {
        Sort::Plain(sort) => {
            let index = d.fresh(sort)?;
            Ok(d.variable(index)?)
        }
        Sort::Own(_) => unreachable!(),
    }
}

// The point where its variables are bound to the variables of the domain.
fn over_binds<D: Symbolic>(
    alloc: Global,
    d: &mut D,
    problem: &Problem,
    point: &Point,
    binds: &Binds<D::Node>,
) -> Result<PosedPoint<D::Node>, NoMemory>
    requires point { IsPointOf problem.now.left problem.now.right point.now }
    requires fresh { AreFresh point.now.vars (D.variables d.old) (seen_binds (D.look d.old) binds.now) }
    ensures extends { Extends (D.look d.old) (D.look d.new) }
    ensures same_variables { D.variables d.new ≡ D.variables d.old }
    ensures posed { IfOk result (λ x. IsPosed (D.variables d.old) problem.now point.now (seen_posed (D.look d.new) x)) }
{
    let condition = all_hold(alloc, d, &problem.left, point.whens.as_slice(), binds)?;
    let left = evaluate(alloc, d, &problem.left, &point.left, binds)?;
    let right = evaluate(alloc, d, &problem.right, &point.right, binds)?;
    Ok(PosedPoint {
        condition,
        left: Config::new(left),
        right: Config::new(right),
    })
}
