// The list of a node.
ghost use Rattle.std.specs.Prelude.{IsTrue, IfOk};
ghost use Rattle.node_list.specs.Listed.{IsListed};

use crate::line::Lines;
use crate::walk::{Task, Walk, append, open, seek};
use data_value::{NoMemory, Symbolic};
use std::alloc::Global;

/// The lines of a node: those of its arguments come before its own, which is the last, and a node that is kept under a number has one
/// line. The only error is want of memory.
pub fn listed<D: Symbolic>(alloc: Global, d: &D, root: &D::Node) -> Result<Lines<D::Node>, NoMemory>
    requires { IsTrue (D.look d.now root.now).valid }
    ensures { IfOk result (λ lines. IsListed (D.look d.now) (D.look d.now root.now) lines.items) }
{
    let mut walk = Walk::new(alloc);
    let mut tasks = Vec::new(alloc);
    open(d, &mut tasks, root)?;
    while let Some(task) = tasks.pop() {
        match task {
            Task::Find(node) => {
                let sought = seek(d, &mut walk, &mut tasks, &node);
                drop(node);
                sought?;
            }
            Task::Append(node) => append(alloc, d, &mut walk, node)?,
        }
    }
    let Walk { lines, .. } = walk;
    Ok(lines)
}
