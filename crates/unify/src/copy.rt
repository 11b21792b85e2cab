// Copies of terms over nodes.
ghost use Rattle.std.specs.Prelude.{◌≡◌, IfOk, IsTrue, map};
ghost use Rattle.std.specs.List.{list_all};
ghost use Rattle.sort_term.specs.NodeTerms.{seen_term, is_valid_term};

use data_value::Domain;
use no_memory::NoMemory;
use sort_term::Term;
use sqlite_items::Items;
use std::alloc::Global;

/// A term over nodes that are the same in all that they are.
#[cycle(copy_term)]
pub fn copy_term<D: Domain>(
    alloc: Global,
    d: &D,
    term: &Term<D::Node>,
) -> Result<Term<D::Node>, NoMemory>
    requires { IsTrue (is_valid_term (seen_term (D.look d.now) term.now)) }
    ensures { IfOk result (λ t. seen_term (D.look d.now) t ≡ seen_term (D.look d.now) term.now) }
{
    match term {
        Term::Plain(node) => Ok(Term::Plain(d.copy(node)?)),
        Term::Con(con, args) => {
            let args = copy_terms(alloc, d, args.as_slice())?;
            Ok(Term::Con(*con, Items::from_vec(args)))
        }
    }
}

#[cycle(copy_term)]
fn copy_terms<D: Domain>(
    alloc: Global,
    d: &D,
    terms: &[Term<D::Node>],
) -> Result<Vec<Term<D::Node>>, NoMemory>
    requires { IsTrue (list_all is_valid_term (map (seen_term (D.look d.now)) terms.now)) }
    ensures { IfOk result (λ ts. map (seen_term (D.look d.now)) ts.items ≡ map (seen_term (D.look d.now)) terms.now) }
{
    let mut copies = Vec::new(alloc);
    for term in terms {
        copies.push(copy_term(alloc, d, term)?)?;
    }
    Ok(copies)
}
