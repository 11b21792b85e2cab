//! Sums and differences.
ghost use Rattle.std.specs.Prelude.{◌≡◌, ◌+◌, ◌-◌, ◌^◌, length, IfOk, OnOk};
ghost use Rattle.data_value.specs.Words.{wrap};
ghost use Rattle.bit_gates.specs.Bits.{number};
ghost use Rattle.bit_gates.specs.Grows.{Grows};
ghost use Rattle.bit_gates.specs.Meaning.{HasLit, HasLits, IsWord};
ghost use Rattle.bit_gates.specs.Sums.{IsBitSum, IsSum};

use crate::Word;
use crate::bitwise::flip_all;
use crate::builder::{Builder, constant};
use crate::gates::{mux, xor};
use crate::layout::repeat;
use no_memory::NoMemory;
use refute_check::Lit;
use sqlite_items::Items;

/// The sum of two words of one width, cut to that width. The only error is want of memory.
pub fn add(b: &mut Builder, x: &[Lit], y: &[Lit]) -> Result<Word, NoMemory>
    requires x { HasLits b.old x.now }
    requires y { HasLits b.old y.now }
    requires same { length y.now ≡ length x.now }
    ensures extends { OnOk result (Grows b.old b.new) }
    ensures made { IfOk result (λ v. IsWord b.new v (length x.now) (λ a. wrap (length x.now) (number a x.now + number a y.now))) }
{
    let sum = add_words(b, x, y, constant(false))?;
    Ok(sum.bits)
}

/// The difference of two words of one width, cut to that width. The only error is want of memory.
pub fn subtract(b: &mut Builder, x: &[Lit], y: &[Lit]) -> Result<Word, NoMemory>
    requires x { HasLits b.old x.now }
    requires y { HasLits b.old y.now }
    requires same { length y.now ≡ length x.now }
    ensures extends { OnOk result (Grows b.old b.new) }
    ensures made { IfOk result (λ v. IsWord b.new v (length x.now)
        (λ a. wrap (length x.now) (number a x.now + 2 ^ length x.now - number a y.now))) }
{
    let flips = flip_all(b.alloc, y)?;
    let sum = add_words(b, x, flips.as_slice(), constant(true))?;
    Ok(sum.bits)
}

/// The negation of a word in two's complement: the two add up to zero. The only error is want of memory.
pub fn negate(b: &mut Builder, x: &[Lit]) -> Result<Word, NoMemory>
    requires { HasLits b.old x.now }
    ensures extends { OnOk result (Grows b.old b.new) }
    ensures made { IfOk result (λ v. IsWord b.new v (length x.now) (λ a. wrap (length x.now) (2 ^ length x.now - number a x.now))) }
{
    let zeros = repeat(b.alloc, constant(false), x.len())?;
    subtract(b, zeros.as_slice(), x)
}

/// The bits of a sum of words, and the bit above them.
#[derive(Debug, Drop)]
pub(crate) struct Sum {
    pub(crate) bits: Word,
    pub(crate) carry: Lit,
}

/// The sum of two words of one width and a bit.
pub(crate) fn add_words(b: &mut Builder, x: &[Lit], y: &[Lit], c: Lit) -> Result<Sum, NoMemory>
    requires x { HasLits b.old x.now }
    requires y { HasLits b.old y.now }
    requires c { HasLit b.old c }
    requires same { length y.now ≡ length x.now }
    ensures extends { OnOk result (Grows b.old b.new) }
    ensures made { IfOk result (IsSum b.new x.now y.now c) }
{
    let mut bits = Items::new(b.alloc);
    let mut carry = c;
    for i in 0..x.len() {
        let digit = add_bits(b, x[i], y[i], carry)?;
        carry = digit.high;
        bits.push(digit.low)?;
    }
    Ok(Sum { bits, carry })
}

/// The two bits of a sum of three.
#[derive(Clone, Copy, Debug)]
struct BitSum {
    low: Lit,
    high: Lit,
}

/// The sum of three bits.
fn add_bits(b: &mut Builder, x: Lit, y: Lit, c: Lit) -> Result<BitSum, NoMemory>
    requires x { HasLit b.old x }
    requires y { HasLit b.old y }
    requires c { HasLit b.old c }
    ensures extends { OnOk result (Grows b.old b.new) }
    ensures made { IfOk result (IsBitSum b.new x y c) }
{
    let differ = xor(b, x, y)?;
    let low = xor(b, differ, c)?;
    let high = mux(b, differ, c, x)?;
    Ok(BitSum { low, high })
}
