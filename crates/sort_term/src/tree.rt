ghost use Rattle.std.specs.Prelude.{◌≡◌, IsTrue, ◌↔◌, IfOk};

use crate::term::{Term, Terms};
use data_value::{Value, copy_value, same_value};
use no_memory::NoMemory;
use sqlite_items::Items;
use std::alloc::Global;

/// Whether two trees are equal. It takes no memory.
#[cycle(same)]
pub fn same_term(a: &Term<Value>, b: &Term<Value>) -> bool
    ensures { IsTrue result ↔ (a.now ≡ b.now) }
{
    match (a, b) {
        (Term::Con(c, xs), Term::Con(d, ys)) => c.0 == d.0
            && same_terms(xs.as_slice(), ys.as_slice()),
        (Term::Plain(x), Term::Plain(y)) => same_value(x, y),
        _ => false,
    }
}

#[cycle(same)]
fn same_terms(xs: &[Term<Value>], ys: &[Term<Value>]) -> bool
    ensures { IsTrue result ↔ (xs.now ≡ ys.now) }
{
    if xs.len() != ys.len() {
        return false;
    }
    for i in 0..xs.len() {
        if !same_term(&xs[i], &ys[i]) {
            return false;
        }
    }
    true
}

/// A tree that equals the given one.
#[cycle(copy)]
pub fn copy_term(alloc: Global, t: &Term<Value>) -> Result<Term<Value>, NoMemory>
    ensures { IfOk result (λ c. c ≡ t.now) }
{
    match t {
        Term::Con(c, ts) => {
            let copies = copy_terms(alloc, ts.as_slice())?;
            Ok(Term::Con(*c, copies))
        }
        Term::Plain(x) => {
            let value = copy_value(alloc, x)?;
            Ok(Term::Plain(value))
        }
    }
}

#[cycle(copy)]
fn copy_terms(alloc: Global, ts: &[Term<Value>]) -> Result<Terms<Value>, NoMemory>
    ensures { IfOk result (λ cs. cs ≡ ts.now) }
{
    let mut copies = Items::new(alloc);
    for t in ts {
        let copy = copy_term(alloc, t)?;
        copies.push(copy)?;
    }
    Ok(copies)
}
