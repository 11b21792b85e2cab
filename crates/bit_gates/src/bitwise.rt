//! Operators on each bit of words.
ghost use Rattle.std.specs.Prelude.{◌≡◌, ◌-◌, ◌^◌, length, map, bit_and, bit_or, bit_xor, if◌then◌else◌, IfOk, OnOk};
ghost use Rattle.refute_check.specs.Truth.{flipped, lit_true};
ghost use Rattle.bit_gates.specs.Bits.{number};
ghost use Rattle.bit_gates.specs.Grows.{Grows};
ghost use Rattle.bit_gates.specs.Meaning.{HasLit, HasLits, IsBit, IsWord};
ghost use Rattle.bit_gates.specs.Gates.{gate_value, gate_number};

use crate::Word;
use crate::builder::Builder;
use crate::gates::{and, mux, or, xor};
use no_memory::NoMemory;
use refute_check::Lit;
use sqlite_items::Items;
use std::alloc::Global;

/// A gate of two inputs.
#[derive(Clone, Copy, Debug)]
enum Gate {
    And,
    Or,
    Xor,
}

/// The word with the opposite of each bit. The only error is want of memory.
pub fn not_word(b: &Builder, x: &[Lit]) -> Result<Word, NoMemory>
    requires { HasLits b.now x.now }
    ensures { IfOk result (λ v. IsWord b.now v (length x.now) (λ a. 2 ^ length x.now - 1 - number a x.now)) }
{
    flip_all(b.alloc, x)
}

/// The bits that are set in both words, which have one width. The only error is want of memory.
pub fn and_words(b: &mut Builder, x: &[Lit], y: &[Lit]) -> Result<Word, NoMemory>
    requires x { HasLits b.old x.now }
    requires y { HasLits b.old y.now }
    requires same { length y.now ≡ length x.now }
    ensures extends { OnOk result (Grows b.old b.new) }
    ensures made { IfOk result (λ v. IsWord b.new v (length x.now) (λ a. bit_and (number a x.now) (number a y.now))) }
{
    gate_words(b, Gate::And, x, y)
}

/// The bits that are set in one of the words, which have one width. The only error is want of memory.
pub fn or_words(b: &mut Builder, x: &[Lit], y: &[Lit]) -> Result<Word, NoMemory>
    requires x { HasLits b.old x.now }
    requires y { HasLits b.old y.now }
    requires same { length y.now ≡ length x.now }
    ensures extends { OnOk result (Grows b.old b.new) }
    ensures made { IfOk result (λ v. IsWord b.new v (length x.now) (λ a. bit_or (number a x.now) (number a y.now))) }
{
    gate_words(b, Gate::Or, x, y)
}

/// The bits in which the words, which have one width, differ. The only error is want of memory.
pub fn xor_words(b: &mut Builder, x: &[Lit], y: &[Lit]) -> Result<Word, NoMemory>
    requires x { HasLits b.old x.now }
    requires y { HasLits b.old y.now }
    requires same { length y.now ≡ length x.now }
    ensures extends { OnOk result (Grows b.old b.new) }
    ensures made { IfOk result (λ v. IsWord b.new v (length x.now) (λ a. bit_xor (number a x.now) (number a y.now))) }
{
    gate_words(b, Gate::Xor, x, y)
}

/// The word x where s is true, and else the word y of the same width. The only error is want of memory.
pub fn mux_words(b: &mut Builder, s: Lit, x: &[Lit], y: &[Lit]) -> Result<Word, NoMemory>
    requires s { HasLit b.old s }
    requires x { HasLits b.old x.now }
    requires y { HasLits b.old y.now }
    requires same { length y.now ≡ length x.now }
    ensures extends { OnOk result (Grows b.old b.new) }
    ensures made { IfOk result (λ v. IsWord b.new v (length x.now) (λ a. if lit_true a s then number a x.now else number a y.now)) }
{
    let mut bits = Items::new(b.alloc);
    for i in 0..x.len() {
        let bit = mux(b, s, x[i], y[i])?;
        bits.push(bit)?;
    }
    Ok(bits)
}

/// The opposites of literals.
pub(crate) fn flip_all(alloc: Global, x: &[Lit]) -> Result<Word, NoMemory>
    ensures { IfOk result (λ v. v ≡ map flipped x.now) }
{
    let mut flips = Items::new(alloc);
    for lit in x {
        flips.push(lit.flip())?;
    }
    Ok(flips)
}

/// The gate's literal for each pair of bits.
fn gate_words(b: &mut Builder, gate: Gate, x: &[Lit], y: &[Lit]) -> Result<Word, NoMemory>
    requires x { HasLits b.old x.now }
    requires y { HasLits b.old y.now }
    requires same { length y.now ≡ length x.now }
    ensures extends { OnOk result (Grows b.old b.new) }
    ensures made { IfOk result (λ v. IsWord b.new v (length x.now) (λ a. gate_number gate (number a x.now) (number a y.now))) }
{
    let mut bits = Items::new(b.alloc);
    for i in 0..x.len() {
        let bit = gate_lit(b, gate, x[i], y[i])?;
        bits.push(bit)?;
    }
    Ok(bits)
}

/// The gate's literal for two literals.
fn gate_lit(b: &mut Builder, gate: Gate, x: Lit, y: Lit) -> Result<Lit, NoMemory>
    requires x { HasLit b.old x }
    requires y { HasLit b.old y }
    ensures extends { OnOk result (Grows b.old b.new) }
    ensures made { IfOk result (λ z. IsBit b.new z (λ a. gate_value gate (lit_true a x) (lit_true a y))) }
{
    match gate {
        Gate::And => and(b, x, y),
        Gate::Or => or(b, x, y),
        Gate::Xor => xor(b, x, y),
    }
}
