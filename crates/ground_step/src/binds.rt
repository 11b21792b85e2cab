// Variables and the trees that they are bound to.
ghost use Rattle.std.specs.Prelude.{◌≡◌, ◌<◌, IfOk, None, Some, length, slice_get};
ghost use Rattle.sort_term.specs.Tree.{tree_at};
ghost use Rattle.ground_step.specs.GroundBinds.{Restricts};

use data_value::Value;
use no_memory::NoMemory;
use sort_term::{Term, copy_term, same_term};
use std::alloc::Global;
use unify::Binds;

// Binds a variable that isn't bound yet.
fn bind_new(
    alloc: Global,
    binds: &mut Binds<Value>,
    variable: usize,
    tree: &Term<Value>,
) -> Result<bool, NoMemory>
    requires { slice_get binds.old variable ≡ Some None }
    ensures { IfOk result (λ ok. Restricts binds.old binds.new ok (λ v. tree_at v variable ≡ tree.now)) }
{
    let copy = copy_term(alloc, tree)?;
    binds.set(variable, Some(copy));
    Ok(true)
}

/// Binds a variable to a tree, or compares the tree with the one that it is bound to.
pub fn bind(
    alloc: Global,
    binds: &mut Binds<Value>,
    variable: usize,
    tree: &Term<Value>,
) -> Result<bool, NoMemory>
    requires { variable < length binds.old }
    ensures { IfOk result (λ ok. Restricts binds.old binds.new ok (λ v. tree_at v variable ≡ tree.now)) }
{
    match binds.get(variable) {
        Some(Some(bound)) => Ok(same_term(bound, tree)),
        Some(None) => bind_new(alloc, binds, variable, tree),
        None => unreachable!(),
    }
}
