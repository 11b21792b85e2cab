// Variables and the terms that they are bound to.
ghost use Rattle.std.specs.Prelude.{◌≡◌, IfOk, None, replicate};

use no_memory::NoMemory;
use sort_term::Term;
use sqlite_items::Items;
use std::alloc::Global;

/// For each variable, in the order in which the variables are declared, its term, or None where it isn't bound yet.
pub type Binds<N> = Items<Option<Term<N>>>;

/// Nodes of a domain.
pub type Nodes<N> = Items<N>;

/// The binds of `count` variables of which none is bound. It fails only for want of memory.
pub fn unbound<N: Drop>(alloc: Global, count: usize) -> Result<Binds<N>, NoMemory>
    ensures { IfOk result (λ binds. binds ≡ replicate count None) }
{
    let mut binds = Items::new(alloc);
    for _variable in 0..count {
        binds.push(None)?;
    }
    Ok(binds)
}
