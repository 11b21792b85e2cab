// Leaves whose states are simpler.
ghost use Rattle.std.specs.Prelude.{◌≡◌, IfOk, IsTrue, map};
ghost use Rattle.std.specs.List.{list_all};
ghost use Rattle.data_value.specs.Nodes.{Extends};
ghost use Rattle.data_value.specs.Truth.{IsCondition};
ghost use Rattle.sort_term.specs.NodeTerms.{seen_term, is_valid_term};
ghost use Rattle.path_condition.specs.Leaves.{seen_leaf};
ghost use Rattle.cut_search.specs.Simpler.{IsSimplerTerm, AreSimplerTerms, IsSimplerLeaf};

use data_value::Symbolic;
use no_memory::NoMemory;
use path_condition::Leaf;
use simplify::simplify;
use sort_term::{Config, Side, Term};
use sqlite_items::Items;
use std::alloc::Global;

/// The leaf with a simpler state, so that what a state is made of doesn't grow with the steps.
pub(crate) fn simpler_leaf<S: Side, D: Symbolic>(
    alloc: Global,
    d: &mut D,
    leaf: &Leaf<S, D::Node>,
) -> Result<Leaf<S, D::Node>, NoMemory>
    requires condition { IsCondition (D.look d.old leaf.now.condition) }
    requires state { IsTrue (is_valid_term (seen_term (D.look d.old) leaf.now.config.term)) }
    ensures extends { Extends (D.look d.old) (D.look d.new) }
    ensures same_variables { D.variables d.new ≡ D.variables d.old }
    ensures simpler { IfOk result (λ l. IsSimplerLeaf (D.variables d.old) (seen_leaf (D.look d.old) leaf.now) (seen_leaf (D.look d.new) l)) }
{
    let state = simpler_term(alloc, d, leaf.config.term())?;
    let condition = d.copy(&leaf.condition)?;
    let rules = Items::from_slice(alloc, leaf.rules.as_slice())?;
    Ok(Leaf {
        config: Config::new(state),
        condition,
        rules,
    })
}

// A term of the same sort that means the same, over simpler nodes.
#[cycle(simpler_term)]
fn simpler_term<D: Symbolic>(
    alloc: Global,
    d: &mut D,
    term: &Term<D::Node>,
) -> Result<Term<D::Node>, NoMemory>
    requires { IsTrue (is_valid_term (seen_term (D.look d.old) term.now)) }
    ensures extends { Extends (D.look d.old) (D.look d.new) }
    ensures same_variables { D.variables d.new ≡ D.variables d.old }
    ensures simpler { IfOk result (λ t. IsSimplerTerm (D.variables d.old) (seen_term (D.look d.old) term.now) (seen_term (D.look d.new) t)) }
{
    match term {
        Term::Plain(node) => Ok(Term::Plain(simplify(alloc, d, node)?)),
        Term::Con(con, args) => {
            let args = simpler_terms(alloc, d, args.as_slice())?;
            Ok(Term::Con(*con, Items::from_vec(args)))
        }
    }
}

#[cycle(simpler_term)]
fn simpler_terms<D: Symbolic>(
    alloc: Global,
    d: &mut D,
    terms: &[Term<D::Node>],
) -> Result<Vec<Term<D::Node>>, NoMemory>
    requires { IsTrue (list_all is_valid_term (map (seen_term (D.look d.old)) terms.now)) }
    ensures extends { Extends (D.look d.old) (D.look d.new) }
    ensures same_variables { D.variables d.new ≡ D.variables d.old }
    ensures simpler { IfOk result
        (λ ts. AreSimplerTerms (D.variables d.old) (map (seen_term (D.look d.old)) terms.now) (map (seen_term (D.look d.new)) ts.items)) }
{
    let mut simpler = Vec::new(alloc);
    for term in terms {
        simpler.push(simpler_term(alloc, d, term)?)?;
    }
    Ok(simpler)
}
