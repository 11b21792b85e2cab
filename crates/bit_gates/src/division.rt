//! Quotients and remainders. No division is carried out: two new words are said to be the quotient and the remainder.
ghost use Rattle.std.specs.Prelude.{◌≡◌, ◌+◌, ◌*◌, length, IfOk, OnOk};
ghost use Rattle.bit_gates.specs.Bits.{number};
ghost use Rattle.bit_gates.specs.Grows.{Grows};
ghost use Rattle.bit_gates.specs.Meaning.{HasLits, IsBit, IsWord};
ghost use Rattle.bit_gates.specs.Division.{IsDivision, is_rest, spells_division};

use crate::Word;
use crate::bitwise::flip_all;
use crate::builder::{Builder, constant};
use crate::comparison::{below, equal};
use crate::free::fresh_word;
use crate::gates::{and, or};
use crate::layout::{extend_zero, repeat};
use crate::product::multiply;
use crate::sums::add;
use no_memory::NoMemory;
use refute_check::Lit;

/// A quotient and a remainder.
#[derive(Debug, Drop)]
pub struct Division {
    /// The quotient, rounded down.
    pub quotient: Word,
    /// The remainder.
    pub remainder: Word,
}

/// The quotient and the remainder of two words of one width. Where y is zero the quotient is all ones, and the remainder is x.
/// The only error is want of memory.
pub fn divide(b: &mut Builder, x: &[Lit], y: &[Lit]) -> Result<Division, NoMemory>
    requires x { HasLits b.old x.now }
    requires y { HasLits b.old y.now }
    requires same { length y.now ≡ length x.now }
    ensures extends { OnOk result (Grows b.old b.new) }
    ensures made { IfOk result (λ d. IsDivision b.new x.now y.now d.quotient d.remainder) }
{
    let quotient = fresh_word(b, x.len())?;
    let remainder = fresh_word(b, x.len())?;
    let right = divides(b, x, y, quotient.as_slice(), remainder.as_slice())?;
    b.demand(right)?;
    Ok(Division {
        quotient,
        remainder,
    })
}

/// Whether q and r are the quotient and the remainder of x and y.
fn divides(b: &mut Builder, x: &[Lit], y: &[Lit], q: &[Lit], r: &[Lit]) -> Result<Lit, NoMemory>
    requires x { HasLits b.old x.now }
    requires y { HasLits b.old y.now }
    requires q { HasLits b.old q.now }
    requires r { HasLits b.old r.now }
    requires same_y { length y.now ≡ length x.now }
    requires same_q { length q.now ≡ length x.now }
    requires same_r { length r.now ≡ length x.now }
    ensures extends { OnOk result (Grows b.old b.new) }
    ensures made { IfOk result (λ z. IsBit b.new z (λ a. spells_division a x.now y.now q.now r.now)) }
{
    let total = product_sum(b, q, y, r)?;
    let wide = extend_zero(b, x, 2 * x.len())?;
    let same = equal(b, total.as_slice(), wide.as_slice())?;
    let rest = rests(b, y, q, r)?;
    and(b, same, rest)
}

/// The word q * y + r in twice the width.
fn product_sum(b: &mut Builder, q: &[Lit], y: &[Lit], r: &[Lit]) -> Result<Word, NoMemory>
    requires q { HasLits b.old q.now }
    requires y { HasLits b.old y.now }
    requires r { HasLits b.old r.now }
    requires same_q { length q.now ≡ length y.now }
    requires same_r { length r.now ≡ length y.now }
    ensures extends { OnOk result (Grows b.old b.new) }
    ensures made { IfOk result (λ v. IsWord b.new v (2 * length y.now) (λ a. number a q.now * number a y.now + number a r.now)) }
{
    let width = 2 * y.len();
    let wide_q = extend_zero(b, q, width)?;
    let wide_y = extend_zero(b, y, width)?;
    let wide_r = extend_zero(b, r, width)?;
    let product = multiply(b, wide_q.as_slice(), wide_y.as_slice())?;
    add(b, product.as_slice(), wide_r.as_slice())
}

/// Whether r is below y, or y is zero and q all ones.
fn rests(b: &mut Builder, y: &[Lit], q: &[Lit], r: &[Lit]) -> Result<Lit, NoMemory>
    requires y { HasLits b.old y.now }
    requires q { HasLits b.old q.now }
    requires r { HasLits b.old r.now }
    requires same_q { length q.now ≡ length y.now }
    requires same_r { length r.now ≡ length y.now }
    ensures extends { OnOk result (Grows b.old b.new) }
    ensures made { IfOk result (λ z. IsBit b.new z (λ a. is_rest (length y.now) (number a y.now) (number a q.now) (number a r.now))) }
{
    let zeros = repeat(b.alloc, constant(false), y.len())?;
    let ones = repeat(b.alloc, constant(true), y.len())?;
    let less = below(b, r, y)?;
    let none = equal(b, y, zeros.as_slice())?;
    let full = equal(b, q, ones.as_slice())?;
    let known = and(b, none, full)?;
    or(b, less, known)
}
