//! Shifts by a variable number of bits.
ghost use Rattle.std.specs.Prelude.{◌≡◌, ◌<◌, ◌≤◌, ◌-◌, length, IfOk, OnOk};
ghost use Rattle.data_value.specs.Words.{shift_left, shift_right, shift_signed};
ghost use Rattle.bit_gates.specs.Bits.{number};
ghost use Rattle.bit_gates.specs.Grows.{Grows};
ghost use Rattle.bit_gates.specs.Meaning.{HasLits, IsWord};
ghost use Rattle.bit_gates.specs.Moves.{HasFill, moved};

use crate::Word;
use crate::bitwise::mux_words;
use crate::builder::{Builder, constant};
use crate::gates::or;
use crate::layout::{lowered, raised};
use no_memory::NoMemory;
use refute_check::Lit;

/// Where the bits of a word go.
#[derive(Clone, Copy, Debug)]
enum Direction {
    /// To the top, with zeros below.
    Up,
    /// To the bottom, with this literal above.
    Down(Lit),
}

/// The word x moved up by y bits, with zeros below. The words have one width. The only error is want of memory.
pub fn shift_left(b: &mut Builder, x: &[Lit], y: &[Lit]) -> Result<Word, NoMemory>
    requires x { HasLits b.old x.now }
    requires y { HasLits b.old y.now }
    requires same { length y.now ≡ length x.now }
    ensures extends { OnOk result (Grows b.old b.new) }
    ensures made { IfOk result (λ v. IsWord b.new v (length x.now) (λ a. shift_left (length x.now) (number a x.now) (number a y.now))) }
{
    shift(b, Direction::Up, x, y)
}

/// The word x moved down by y bits, with zeros above. The words have one width. The only error is want of memory.
pub fn shift_right(b: &mut Builder, x: &[Lit], y: &[Lit]) -> Result<Word, NoMemory>
    requires x { HasLits b.old x.now }
    requires y { HasLits b.old y.now }
    requires same { length y.now ≡ length x.now }
    ensures extends { OnOk result (Grows b.old b.new) }
    ensures made { IfOk result (λ v. IsWord b.new v (length x.now) (λ a. shift_right (length x.now) (number a x.now) (number a y.now))) }
{
    shift(b, Direction::Down(constant(false)), x, y)
}

/// The word x moved down by y bits, with copies of its top bit above. The words have one width. The only error is want of memory.
pub fn shift_signed(b: &mut Builder, x: &[Lit], y: &[Lit]) -> Result<Word, NoMemory>
    requires x { HasLits b.old x.now }
    requires y { HasLits b.old y.now }
    requires same { length y.now ≡ length x.now }
    requires some { 0 < length x.now }
    ensures extends { OnOk result (Grows b.old b.new) }
    ensures made { IfOk result (λ v. IsWord b.new v (length x.now) (λ a. shift_signed (length x.now) (number a x.now) (number a y.now))) }
{
    let sign = x[x.len() - 1];
    shift(b, Direction::Down(sign), x, y)
}

/// The word x moved by y bits. Bit j of y moves it by 2^j, as long as that is below the width; the other bits move out all of it.
fn shift(b: &mut Builder, way: Direction, x: &[Lit], y: &[Lit]) -> Result<Word, NoMemory>
    requires way { HasFill b.old way }
    requires x { HasLits b.old x.now }
    requires y { HasLits b.old y.now }
    ensures extends { OnOk result (Grows b.old b.new) }
    ensures made { IfOk result (λ v. IsWord b.new v (length x.now) (λ a. moved a way (length x.now) (number a x.now) (number a y.now))) }
{
    let width = x.len();
    let mut word = move_word(b, way, x, 0)?;
    let mut long = constant(false);
    let mut step = width.min(1);
    for j in 0..y.len() {
        if step < width {
            let moved = move_word(b, way, word.as_slice(), step)?;
            word = mux_words(b, y[j], moved.as_slice(), word.as_slice())?;
            step = width.min(2 * step);
        } else {
            long = or(b, long, y[j])?;
        }
    }
    let emptied = move_word(b, way, x, width)?;
    mux_words(b, long, emptied.as_slice(), word.as_slice())
}

/// The word x moved by so many bits.
fn move_word(b: &Builder, way: Direction, x: &[Lit], count: usize) -> Result<Word, NoMemory>
    requires way { HasFill b.now way }
    requires x { HasLits b.now x.now }
    requires within { count ≤ length x.now }
    ensures { IfOk result (λ v. IsWord b.now v (length x.now) (λ a. moved a way (length x.now) (number a x.now) count)) }
{
    match way {
        Direction::Up => raised(b, x, count),
        Direction::Down(fill) => lowered(b, fill, x, count),
    }
}
