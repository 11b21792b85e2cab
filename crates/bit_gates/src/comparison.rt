//! Comparisons of words of one width.
ghost use Rattle.std.specs.Prelude.{◌≡◌, ◌<◌, ◌-◌, ◌==◌, ◌++◌, [], ◌∷◌, nat_lt, nat_le, length, take, IfOk, OnOk};
ghost use Rattle.data_value.specs.Words.{signed_rank};
ghost use Rattle.bit_gates.specs.Bits.{number};
ghost use Rattle.bit_gates.specs.Grows.{Grows};
ghost use Rattle.bit_gates.specs.Meaning.{HasLits, IsBit, IsWord};
ghost use Rattle.bit_gates.specs.Orders.{signed_lt, signed_le};

use crate::Word;
use crate::bitwise::flip_all;
use crate::builder::{Builder, constant};
use crate::gates::{and, xor};
use crate::sums::add_words;
use no_memory::NoMemory;
use refute_check::Lit;
use sqlite_items::Items;

/// A literal that is true where the words are equal. The only error is want of memory.
pub fn equal(b: &mut Builder, x: &[Lit], y: &[Lit]) -> Result<Lit, NoMemory>
    requires x { HasLits b.old x.now }
    requires y { HasLits b.old y.now }
    requires same { length y.now ≡ length x.now }
    ensures extends { OnOk result (Grows b.old b.new) }
    ensures made { IfOk result (λ z. IsBit b.new z (λ a. number a x.now == number a y.now)) }
{
    let mut all = constant(true);
    for i in 0..x.len() {
        let differ = xor(b, x[i], y[i])?;
        all = and(b, all, differ.flip())?;
    }
    Ok(all)
}

/// A literal that is true where the first word is below the second. The only error is want of memory.
pub fn below(b: &mut Builder, x: &[Lit], y: &[Lit]) -> Result<Lit, NoMemory>
    requires x { HasLits b.old x.now }
    requires y { HasLits b.old y.now }
    requires same { length y.now ≡ length x.now }
    ensures extends { OnOk result (Grows b.old b.new) }
    ensures made { IfOk result (λ z. IsBit b.new z (λ a. nat_lt (number a x.now) (number a y.now))) }
{
    let flips = flip_all(b.alloc, y)?;
    let sum = add_words(b, x, flips.as_slice(), constant(true))?;
    Ok(sum.carry.flip())
}

/// A literal that is true where the first word is at most the second. The only error is want of memory.
pub fn below_or_equal(b: &mut Builder, x: &[Lit], y: &[Lit]) -> Result<Lit, NoMemory>
    requires x { HasLits b.old x.now }
    requires y { HasLits b.old y.now }
    requires same { length y.now ≡ length x.now }
    ensures extends { OnOk result (Grows b.old b.new) }
    ensures made { IfOk result (λ z. IsBit b.new z (λ a. nat_le (number a x.now) (number a y.now))) }
{
    let above = below(b, y, x)?;
    Ok(above.flip())
}

/// A literal that is true where the first word, read in two's complement, is below the second. The only error is want of memory.
pub fn signed_below(b: &mut Builder, x: &[Lit], y: &[Lit]) -> Result<Lit, NoMemory>
    requires x { HasLits b.old x.now }
    requires y { HasLits b.old y.now }
    requires same { length y.now ≡ length x.now }
    requires some { 0 < length x.now }
    ensures extends { OnOk result (Grows b.old b.new) }
    ensures made { IfOk result (λ z. IsBit b.new z (λ a. signed_lt (length x.now) (number a x.now) (number a y.now))) }
{
    let first = flip_top(b, x)?;
    let second = flip_top(b, y)?;
    below(b, first.as_slice(), second.as_slice())
}

/// A literal that is true where the first word, read in two's complement, is at most the second. The only error is want of
/// memory.
pub fn signed_below_or_equal(b: &mut Builder, x: &[Lit], y: &[Lit]) -> Result<Lit, NoMemory>
    requires x { HasLits b.old x.now }
    requires y { HasLits b.old y.now }
    requires same { length y.now ≡ length x.now }
    requires some { 0 < length x.now }
    ensures extends { OnOk result (Grows b.old b.new) }
    ensures made { IfOk result (λ z. IsBit b.new z (λ a. signed_le (length x.now) (number a x.now) (number a y.now))) }
{
    let above = signed_below(b, y, x)?;
    Ok(above.flip())
}

/// The word with the opposite top bit: its rank in the signed order.
fn flip_top(b: &Builder, x: &[Lit]) -> Result<Word, NoMemory>
    requires x { HasLits b.now x.now }
    requires some { 0 < length x.now }
    ensures { IfOk result (λ v. IsWord b.now v (length x.now) (λ a. signed_rank (length x.now) (number a x.now))) }
{
    let top = x.len() - 1;
    let mut bits = Items::from_slice(b.alloc, &x[..top])?;
    bits.push(x[top].flip())?;
    Ok(bits)
}
