// The variables of a rule, a cut or a point.
ghost use Rattle.std.specs.Prelude.{◌≡◌, map, IfOk, None, Some};
ghost use Rattle.name_resolution.specs.Known.{vocabulary_of};
ghost use Rattle.name_resolution.specs.Named.{IsNamesOf};
ghost use Rattle.name_resolution.specs.Reads.{variables_of};

use crate::known::Known;
use crate::names::NameTable;
use no_memory::NoMemory;
use rule_text::RawVar;
use sort_term::{Var, Vars, is_reserved};
use sqlite_items::Items;
use std::alloc::Global;

/// The names of variables, numbered in the order of the text; None where one is a reserved word, or two are the same.
pub fn variable_names(alloc: Global, raws: &[RawVar]) -> Result<Option<NameTable>, NoMemory>
    ensures { IfOk result (IsNamesOf raws.now) }
{
    let mut names = NameTable::new(alloc);
    for raw in raws {
        if is_reserved(raw.name.as_slice()) {
            return Ok(None);
        }
        let is_new = names.declare(alloc, &raw.name)?;
        if !is_new {
            return Ok(None);
        }
    }
    Ok(Some(names))
}

/// The variables with their sorts; None where a sort is no sort of data with widths from 1 to 64 and not declared.
pub fn variables(
    alloc: Global,
    known: &Known<'_>,
    raws: &[RawVar],
) -> Result<Option<Vars>, NoMemory>
    ensures { IfOk result (λ vars. vars ≡ variables_of (vocabulary_of known.now) raws.now) }
{
    let mut vars = Items::new(alloc);
    for raw in raws {
        let Some(sort) = known.sort(&raw.sort) else {
            return Ok(None);
        };
        let name = raw.name.copy(alloc)?;
        vars.push(Var { name, sort })?;
    }
    Ok(Some(vars))
}
