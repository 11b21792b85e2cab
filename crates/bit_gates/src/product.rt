//! Products.
ghost use Rattle.std.specs.Prelude.{◌≡◌, ◌≤◌, ◌+◌, ◌*◌, ◌^◌, length, IfOk, OnOk};
ghost use Rattle.refute_check.specs.Truth.{lit_true};
ghost use Rattle.data_value.specs.Words.{wrap};
ghost use Rattle.bit_gates.specs.Bits.{bit, number};
ghost use Rattle.bit_gates.specs.Grows.{Grows};
ghost use Rattle.bit_gates.specs.Meaning.{HasLit, HasLits, IsWord};

use crate::Word;
use crate::bitwise::mux_words;
use crate::builder::{Builder, constant};
use crate::layout::{raised, repeat};
use crate::sums::add;
use no_memory::NoMemory;
use refute_check::Lit;

/// The product of two words of one width, cut to that width. The only error is want of memory.
pub fn multiply(b: &mut Builder, x: &[Lit], y: &[Lit]) -> Result<Word, NoMemory>
    requires x { HasLits b.old x.now }
    requires y { HasLits b.old y.now }
    requires same { length y.now ≡ length x.now }
    ensures extends { OnOk result (Grows b.old b.new) }
    ensures made { IfOk result (λ v. IsWord b.new v (length x.now) (λ a. wrap (length x.now) (number a x.now * number a y.now))) }
{
    let mut sum = repeat(b.alloc, constant(false), x.len())?;
    for i in 0..x.len() {
        sum = add_partial(b, sum.as_slice(), y[i], x, i)?;
    }
    Ok(sum)
}

/// A sum to which the word x, moved up by so many bits, is added where s is true, cut to the width.
fn add_partial(
    b: &mut Builder,
    sum: &[Lit],
    s: Lit,
    x: &[Lit],
    count: usize,
) -> Result<Word, NoMemory>
    requires sum { HasLits b.old sum.now }
    requires s { HasLit b.old s }
    requires x { HasLits b.old x.now }
    requires same { length sum.now ≡ length x.now }
    requires within { count ≤ length x.now }
    ensures extends { OnOk result (Grows b.old b.new) }
    ensures made { IfOk result (λ v. IsWord b.new v (length x.now)
        (λ a. wrap (length x.now) (number a sum.now + number a x.now * (2 ^ count * bit (lit_true a s))))) }
{
    let zeros = repeat(b.alloc, constant(false), x.len())?;
    let moved = raised(b, x, count)?;
    let part = mux_words(b, s, moved.as_slice(), zeros.as_slice())?;
    add(b, part.as_slice(), sum)
}
