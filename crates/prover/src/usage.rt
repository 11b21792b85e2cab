//! The variables that a node uses.
ghost use Rattle.std.specs.Prelude.{◌≡◌, ◌<◌, ◌+◌, IfOk, IsTrue, length};
ghost use Rattle.data_value.specs.Nodes.{Seen};
ghost use Rattle.node_list.specs.Listed.{AreLines};
ghost use Rattle.prover.specs.Usage.{AreUsed, AreUnmarked, IsSearching};

use crate::splitting::{mark_all, only_last};
use data_value::{NoMemory, Symbolic, View};
use node_list::{Line, Made, listed};
use std::alloc::Global;

/// A mark for each variable of the domain. Those that a node uses are marked.
pub(crate) fn used_variables<D: Symbolic>(
    alloc: Global,
    d: &D,
    node: &D::Node,
) -> Result<Vec<bool>, NoMemory>
    requires { IsTrue (D.look d.now node.now).valid }
    ensures { IfOk result (λ marks. AreUsed (D.look d.now) (D.look d.now node.now) (length (D.variables d.now)) marks.items) }
{
    let lines = listed(alloc, d, node)?;
    let mut parts = only_last(alloc, lines.len())?;
    let mut variables = no_marks(alloc, d.sorts().len())?;
    for done in 0..lines.len() {
        let place = lines.len() - 1 - done;
        search_line(d, lines.as_slice(), place, &mut parts, &mut variables);
    }
    Ok(variables)
}

// A mark for each of so many places, none of which is marked.
fn no_marks(alloc: Global, count: usize) -> Result<Vec<bool>, NoMemory>
    ensures { IfOk result (λ marks. AreUnmarked count marks.items) }
{
    let mut marks = Vec::with_capacity(alloc, count)?;
    for _place in 0..count {
        marks.push(false)?;
    }
    Ok(marks)
}

// Marks what the line of a place is made of, where it is marked itself: lines, or a variable.
fn search_line<D: Symbolic>(
    d: &D,
    lines: &[Line<D::Node>],
    place: usize,
    parts: &mut [bool],
    variables: &mut [bool],
)
    requires lines { AreLines (D.look d.now) lines.now }
    requires place { place < length lines.now }
    requires parts { length parts.old ≡ length lines.now }
    requires variables { length variables.old ≡ length (D.variables d.now) }
    ensures parts_count { length parts.new ≡ length parts.old }
    ensures variables_count { length variables.new ≡ length variables.old }
    ensures searched { (s : Seen D.Node) → IsSearching (D.look d.now) s lines.now (place + 1) parts.old variables.old → IsSearching (D.look d.now) s lines.now place parts.new variables.new }
{
    if !parts[place] {
        return;
    }
    let line = &lines[place];
    match &line.made {
        Made::Apply(_, args) => mark_all(args.as_slice(), parts),
        Made::Leaf => {
            if let View::Variable(index) = d.view(&line.node) {
                variables[index] = true;
            }
        }
    }
}
