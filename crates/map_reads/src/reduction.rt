//! A formula without its maps.
ghost use Rattle.std.specs.Prelude.{◌≡◌, IfOk, Some};
ghost use Rattle.data_value.specs.declared.DataSort.TheVariants.{Bool as BoolSort};
ghost use Rattle.data_value.specs.Truth.{IsCondition};
ghost use Rattle.map_reads.specs.Drafts.{IsDraft, sort_at};
ghost use Rattle.map_reads.specs.Reduced.{MeansTheSame, IsSound, HasWords, IsFinished};

use crate::demand::demand;
use crate::draft::Draft;
use crate::read::Reads;
use crate::walking::places_of;
use data_value::{Flat, NoMemory, Symbolic};
use std::alloc::Global;

/// A formula over words in place of one with maps: each read of a map variable at a key is an input of its own, and reads of one
/// variable at equal keys are demanded to be equal. It fails only for want of memory.
pub fn without_maps<D: Symbolic>(alloc: Global, d: &D, formula: &D::Node) -> Result<Reads, NoMemory>
    requires { IsCondition (D.look d.now formula.now) }
    ensures sorts { IfOk result (λ r. r.sorts ≡ D.variables d.now) }
    ensures means { IfOk result (MeansTheSame (D.look d.now formula.now)) }
    ensures sound { IfOk result (IsSound (D.look d.now formula.now)) }
    ensures tied { IfOk result HasWords }
{
    let mut draft = Draft::new(alloc, d.sorts())?;
    let mut formulas = Vec::new(alloc);
    formulas.push(d.copy(formula)?)?;
    let roots = places_of(alloc, d, &mut draft, formulas.as_slice())?;
    let demanded = demand(alloc, &mut draft, roots.as_slice()[0])?;
    Ok(finished(draft, demanded))
}

/// A draft that gets no more, with the formula at a place.
fn finished(draft: Draft, root: usize) -> Reads
    requires draft { IsDraft draft }
    requires root { sort_at draft root ≡ Some BoolSort }
    ensures { IsFinished draft root result }
{
    let Draft {
        sorts,
        scalars,
        widths,
        nodes,
        reads,
    } = draft;
    Reads {
        flat: Flat {
            nodes,
            widths,
            root,
        },
        sorts,
        scalars,
        reads,
    }
}
