// Terms that are nodes.
ghost use Rattle.std.specs.Prelude.{◌≡◌, IfOk, All, map};
ghost use Rattle.sort_term.specs.declared.term.Term.TheVariants.{Plain};
ghost use Rattle.unify.specs.Binds.{IsNode};

use crate::binds::Nodes;
use no_memory::NoMemory;
use sort_term::Term;
use sqlite_items::Items;
use std::alloc::Global;

/// The node that a term is.
pub(crate) fn plain_node<N>(term: &Term<N>) -> &N
    requires { IsNode term.now }
    ensures { term.now ≡ Plain result.now }
{
    match term {
        Term::Plain(node) => node,
        Term::Con(..) => unreachable!(),
    }
}

/// The nodes that terms are.
pub(crate) fn plain_nodes<N: Drop>(alloc: Global, terms: Vec<Term<N>>) -> Result<Nodes<N>, NoMemory>
    requires { All IsNode terms.items }
    ensures { IfOk result (λ nodes. terms.items ≡ map Plain nodes) }
{
    let mut nodes = Items::new(alloc);
    for term in terms {
        match term {
            Term::Plain(node) => nodes.push(node)?,
            Term::Con(..) => unreachable!(),
        }
    }
    Ok(nodes)
}
