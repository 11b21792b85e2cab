//! Words of which nothing is said.
ghost use Rattle.std.specs.Prelude.{IfOk};
ghost use Rattle.bit_gates.specs.Free.{IsFree};

use crate::Word;
use crate::builder::Builder;
use no_memory::NoMemory;
use sqlite_items::Items;

/// A word of new variables, which no clause speaks of. The only error is want of memory.
pub fn fresh_word(b: &mut Builder, width: usize) -> Result<Word, NoMemory>
    ensures { IfOk result (λ v. IsFree b.old b.new v width) }
{
    let mut bits = Items::new(b.alloc);
    for _i in 0..width {
        let bit = b.fresh()?;
        bits.push(bit)?;
    }
    Ok(bits)
}
