//! New variables for the bits of inputs.
ghost use Rattle.std.specs.Prelude.{map, All, IfOk};
ghost use Rattle.bit_gates.specs.Free.{IsFree};
ghost use Rattle.data_value.specs.Sorts.{IsWidth};
ghost use Rattle.bv_blast.specs.Inputs.{positive};
ghost use Rattle.bv_blast.specs.Free.{AreFree};

use crate::{BitLists, Bits};
use bit_gates::{Builder, NoMemory};
use sqlite_items::Items;
use std::alloc::Global;

/// New variables for the bits of an input of each width.
pub(crate) fn fresh_inputs(
    alloc: Global,
    b: &mut Builder,
    widths: &[u8],
) -> Result<BitLists, NoMemory>
    requires { All IsWidth widths.now }
    ensures { IfOk result (λ inputs. AreFree b.old b.new inputs widths.now) }
{
    let mut inputs = Items::new(alloc);
    for width in widths {
        let bits = fresh_bits(alloc, b, *width)?;
        inputs.push(bits)?;
    }
    Ok(inputs)
}

/// New variables for so many bits.
fn fresh_bits(alloc: Global, b: &mut Builder, width: u8) -> Result<Bits, NoMemory>
    ensures { IfOk result (λ bits. IsFree b.old b.new (map positive bits) width) }
{
    let mut bits = Items::new(alloc);
    for _i in 0..width {
        let bit = b.fresh()?;
        bits.push(bit.var)?;
    }
    Ok(bits)
}
