//! Words that are made of constants, or of bits of other words, so that no clause is added for them.
ghost use Rattle.std.specs.Prelude.{◌≡◌, ◌<◌, ◌≤◌, ◌+◌, ◌-◌, ◌*◌, ◌^◌, ◌++◌, length, replicate, IfOk};
ghost use Rattle.data_value.specs.Words.{wrap, bits_between, extend_signed};
ghost use Rattle.refute_check.specs.Truth.{lit_true};
ghost use Rattle.bit_gates.specs.Bits.{number};
ghost use Rattle.bit_gates.specs.Meaning.{HasLit, HasLits, IsWord};
ghost use Rattle.bit_gates.specs.Moves.{moved_down};

use crate::Word;
use crate::builder::{Builder, constant};
use no_memory::NoMemory;
use refute_check::Lit;
use sqlite_items::Items;
use std::alloc::Global;

/// The lowest bits of a number, so many as the width. The only error is want of memory.
pub fn constant_word(b: &Builder, width: usize, value: u64) -> Result<Word, NoMemory>
    ensures { IfOk result (λ v. IsWord b.now v width (λ a. wrap width value)) }
{
    let mut bits = Items::new(b.alloc);
    let mut rest = value;
    for _i in 0..width {
        bits.push(constant(rest % 2 == 1))?;
        rest /= 2;
    }
    Ok(bits)
}

/// The bits of one word above those of another. The only error is want of memory.
pub fn concat(b: &Builder, high: &[Lit], low: &[Lit]) -> Result<Word, NoMemory>
    requires high { HasLits b.now high.now }
    requires low { HasLits b.now low.now }
    ensures { IfOk result (λ v. IsWord b.now v (length high.now + length low.now)
        (λ a. number a high.now * 2 ^ length low.now + number a low.now)) }
{
    join(b.alloc, low, high)
}

/// The bits of a word from number `low` to number `high`, counted from 0. The only error is want of memory.
pub fn extract(b: &Builder, x: &[Lit], high: usize, low: usize) -> Result<Word, NoMemory>
    requires x { HasLits b.now x.now }
    requires some { low ≤ high }
    requires within { high < length x.now }
    ensures { IfOk result (λ v. IsWord b.now v (high - low + 1) (λ a. bits_between high low (number a x.now))) }
{
    Ok(Items::from_slice(b.alloc, &x[low..high + 1])?)
}

/// The same number in so many bits. The only error is want of memory.
pub fn extend_zero(b: &Builder, x: &[Lit], width: usize) -> Result<Word, NoMemory>
    requires x { HasLits b.now x.now }
    requires wider { length x.now ≤ width }
    ensures { IfOk result (λ v. IsWord b.now v width (λ a. number a x.now)) }
{
    let zeros = repeat(b.alloc, constant(false), width - x.len())?;
    join(b.alloc, x, zeros.as_slice())
}

/// The same signed number in so many bits. The only error is want of memory.
pub fn extend_sign(b: &Builder, x: &[Lit], width: usize) -> Result<Word, NoMemory>
    requires x { HasLits b.now x.now }
    requires some { 0 < length x.now }
    requires wider { length x.now ≤ width }
    ensures { IfOk result (λ v. IsWord b.now v width (λ a. extend_signed (length x.now) width (number a x.now))) }
{
    let sign = x[x.len() - 1];
    let signs = repeat(b.alloc, sign, width - x.len())?;
    join(b.alloc, x, signs.as_slice())
}

/// The word moved up by so many bits, with zeros below.
pub(crate) fn raised(b: &Builder, x: &[Lit], count: usize) -> Result<Word, NoMemory>
    requires x { HasLits b.now x.now }
    requires within { count ≤ length x.now }
    ensures { IfOk result (λ v. IsWord b.now v (length x.now) (λ a. wrap (length x.now) (number a x.now * 2 ^ count))) }
{
    let zeros = repeat(b.alloc, constant(false), count)?;
    join(b.alloc, zeros.as_slice(), &x[..x.len() - count])
}

/// The word moved down by so many bits, with copies of a literal above.
pub(crate) fn lowered(b: &Builder, fill: Lit, x: &[Lit], count: usize) -> Result<Word, NoMemory>
    requires fill { HasLit b.now fill }
    requires x { HasLits b.now x.now }
    requires within { count ≤ length x.now }
    ensures { IfOk result (λ v. IsWord b.now v (length x.now) (λ a. moved_down (length x.now) (lit_true a fill) (number a x.now) count)) }
{
    let fills = repeat(b.alloc, fill, count)?;
    join(b.alloc, &x[count..], fills.as_slice())
}

/// The literals of two lists.
pub(crate) fn join(alloc: Global, low: &[Lit], high: &[Lit]) -> Result<Word, NoMemory>
    ensures { IfOk result (λ v. v ≡ low.now ++ high.now) }
{
    let mut bits = Items::from_slice(alloc, low)?;
    let more = Items::from_slice(alloc, high)?;
    bits.append(more)?;
    Ok(bits)
}

/// A literal so many times.
pub(crate) fn repeat(alloc: Global, lit: Lit, count: usize) -> Result<Word, NoMemory>
    ensures { IfOk result (λ v. v ≡ replicate count lit) }
{
    let mut bits = Items::new(alloc);
    for _i in 0..count {
        bits.push(lit)?;
    }
    Ok(bits)
}
