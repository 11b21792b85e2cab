// The text of trees. Each function writes behind what the text has.
ghost use Rattle.std.specs.Prelude.{◌≡◌, ◌++◌, map, OnOk};
ghost use Rattle.sexp_text.specs.Print.{behind};
ghost use Rattle.report_text.specs.States.{con_text, tree_text};

use crate::values::write_value;
use data_value::Value;
use no_memory::NoMemory;
use sort_term::{Con, ConId, Term};
use sqlite_items::at;
use std::alloc::Global;

#[cycle(tree)]
pub fn write_tree(
    alloc: Global,
    text: &mut Vec<u8>,
    cons: &[Con],
    tree: &Term<Value>,
) -> Result<(), NoMemory>
    ensures { OnOk result (text.new.items ≡ text.old.items ++ tree_text cons.now tree.now) }
{
    match tree {
        Term::Con(con, trees) => {
            text.push(b'(')?;
            write_con(text, cons, *con)?;
            write_trees(alloc, text, cons, trees.as_slice())?;
            text.push(b')')?;
        }
        Term::Plain(value) => write_value(alloc, text, value)?,
    }
    Ok(())
}

// The trees, each behind a space.
#[cycle(tree)]
fn write_trees(
    alloc: Global,
    text: &mut Vec<u8>,
    cons: &[Con],
    trees: &[Term<Value>],
) -> Result<(), NoMemory>
    ensures { OnOk result (text.new.items ≡ text.old.items ++ behind 32 (map (tree_text cons.now) trees.now)) }
{
    for tree in trees {
        text.push(b' ')?;
        write_tree(alloc, text, cons, tree)?;
    }
    Ok(())
}

// The name of a constructor, or nothing where there is none.
fn write_con(text: &mut Vec<u8>, cons: &[Con], con: ConId) -> Result<(), NoMemory>
    ensures { OnOk result (text.new.items ≡ text.old.items ++ con_text cons.now con) }
{
    if let Some(con) = at(cons, con.0) {
        text.extend_from_slice(con.name.as_slice())?;
    }
    Ok(())
}
