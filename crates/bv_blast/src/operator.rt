//! The literals of an operator's value.
ghost use Rattle.std.specs.Prelude.{◌≡◌, ◌≢◌, [], ◌∷◌, length, Some, IsSome, IfOk, OnOk};
ghost use Rattle.data_value.specs.declared.Op.TheVariants.{Concat};
ghost use Rattle.data_value.specs.declared.DataSort.TheVariants.{Bits as BitsSort, Bool as BoolSort};
ghost use Rattle.data_value.specs.Sorts.{IsWidth, IsSort, op_sort};
ghost use Rattle.bit_gates.specs.Grows.{Grows};
ghost use Rattle.bit_gates.specs.Meaning.{HasLit, HasLits};
ghost use Rattle.bv_blast.specs.declared.place.Place.TheVariants.{Flag, Word};
ghost use Rattle.bv_blast.specs.Places.{place_sort, HasPlace, HasOpValue};

use crate::place::Place;
use bit_gates::{Builder, NoMemory, Word};
use data_value::Op;
use refute_check::Lit;

/// The literals of the operator's value at one argument.
pub(crate) fn on_one(b: &mut Builder, op: Op, x: &Place) -> Result<Place, NoMemory>
    requires sorted { IsSome (op_sort op (place_sort x.now ∷ [])) }
    requires x { HasPlace b.old x.now }
    requires sort { IsSort (place_sort x.now) }
    ensures extends { OnOk result (Grows b.old b.new) }
    ensures made { IfOk result (HasOpValue b.new op (x.now ∷ [])) }
{
    match x {
        Place::Flag(x) => {
            match op {
                Op::Not => Ok(Place::Flag(x.flip())),
                _ => unreachable!(),
            }
        }
        Place::Word(x) => on_word(b, op, x.as_slice()),
    }
}

/// The literals of the operator's value at two arguments.
pub(crate) fn on_two(b: &mut Builder, op: Op, x: &Place, y: &Place) -> Result<Place, NoMemory>
    requires sorted { IsSome (op_sort op (place_sort x.now ∷ place_sort y.now ∷ [])) }
    requires x { HasPlace b.old x.now }
    requires y { HasPlace b.old y.now }
    requires sort_x { IsSort (place_sort x.now) }
    requires sort_y { IsSort (place_sort y.now) }
    ensures extends { OnOk result (Grows b.old b.new) }
    ensures made { IfOk result (HasOpValue b.new op (x.now ∷ y.now ∷ [])) }
{
    match (op, x, y) {
        (_, Place::Flag(x), Place::Flag(y)) => on_flags(b, op, *x, *y),
        (Op::Concat, Place::Word(x), Place::Word(y)) => {
            Ok(Place::Word(bit_gates::concat(b, x.as_slice(), y.as_slice())?))
        }
        (_, Place::Word(x), Place::Word(y)) => on_words(b, op, x.as_slice(), y.as_slice()),
        _ => unreachable!(),
    }
}

/// The literals of the operator's value at three arguments.
pub(crate) fn on_three(
    b: &mut Builder,
    op: Op,
    first: &Place,
    x: &Place,
    y: &Place,
) -> Result<Place, NoMemory>
    requires sorted { IsSome (op_sort op (place_sort first.now ∷ place_sort x.now ∷ place_sort y.now ∷ [])) }
    requires first { HasPlace b.old first.now }
    requires x { HasPlace b.old x.now }
    requires y { HasPlace b.old y.now }
    ensures extends { OnOk result (Grows b.old b.new) }
    ensures made { IfOk result (HasOpValue b.new op (first.now ∷ x.now ∷ y.now ∷ [])) }
{
    match (op, first, x, y) {
        (Op::Ite, Place::Flag(s), Place::Flag(x), Place::Flag(y)) => {
            Ok(Place::Flag(bit_gates::mux(b, *s, *x, *y)?))
        }
        (Op::Ite, Place::Flag(s), Place::Word(x), Place::Word(y)) => {
            Ok(Place::Word(bit_gates::mux_words(b, *s, x.as_slice(), y.as_slice())?))
        }
        _ => unreachable!(),
    }
}

/// The literals of the operator's value at two truth values.
fn on_flags(b: &mut Builder, op: Op, x: Lit, y: Lit) -> Result<Place, NoMemory>
    requires sorted { IsSome (op_sort op (BoolSort ∷ BoolSort ∷ [])) }
    requires x { HasLit b.old x }
    requires y { HasLit b.old y }
    ensures extends { OnOk result (Grows b.old b.new) }
    ensures made { IfOk result (HasOpValue b.new op (Flag x ∷ Flag y ∷ [])) }
{
    match op {
        Op::And => Ok(Place::Flag(bit_gates::and(b, x, y)?)),
        Op::Or => Ok(Place::Flag(bit_gates::or(b, x, y)?)),
        Op::Eq => Ok(Place::Flag(bit_gates::xor(b, x, y)?.flip())),
        _ => unreachable!(),
    }
}

/// The literals of the operator's value at a word.
fn on_word(b: &mut Builder, op: Op, x: &[Lit]) -> Result<Place, NoMemory>
    requires sorted { IsSome (op_sort op (BitsSort (length x.now) ∷ [])) }
    requires x { HasLits b.old x.now }
    requires width { IsWidth (length x.now) }
    ensures extends { OnOk result (Grows b.old b.new) }
    ensures made { IfOk result (HasOpValue b.new op (Word x.now ∷ [])) }
{
    match op {
        Op::BvNot => Ok(Place::Word(bit_gates::not_word(b, x)?)),
        Op::Neg => Ok(Place::Word(bit_gates::negate(b, x)?)),
        Op::Extract { hi, lo } => {
            Ok(Place::Word(bit_gates::extract(b, x, hi as usize, lo as usize)?))
        }
        Op::Zext(width) => Ok(Place::Word(bit_gates::extend_zero(b, x, width as usize)?)),
        Op::Sext(width) => Ok(Place::Word(bit_gates::extend_sign(b, x, width as usize)?)),
        _ => unreachable!(),
    }
}

/// The literals of the operator's value at two words, which it wants to be of one width.
fn on_words(b: &mut Builder, op: Op, x: &[Lit], y: &[Lit]) -> Result<Place, NoMemory>
    requires sorted { IsSome (op_sort op (BitsSort (length x.now) ∷ BitsSort (length y.now) ∷ [])) }
    requires x { HasLits b.old x.now }
    requires y { HasLits b.old y.now }
    requires width { IsWidth (length x.now) }
    requires same { length y.now ≡ length x.now }
    requires other { op ≢ Concat }
    ensures extends { OnOk result (Grows b.old b.new) }
    ensures made { IfOk result (HasOpValue b.new op (Word x.now ∷ Word y.now ∷ [])) }
{
    match op {
        Op::Eq | Op::Ult | Op::Ule | Op::Slt | Op::Sle => {
            Ok(Place::Flag(comparison(b, op, x, y)?))
        }
        _ => Ok(Place::Word(word_of_words(b, op, x, y)?)),
    }
}

/// The literal of a comparison of two words of one width.
fn comparison(b: &mut Builder, op: Op, x: &[Lit], y: &[Lit]) -> Result<Lit, NoMemory>
    requires sorted { op_sort op (BitsSort (length x.now) ∷ BitsSort (length y.now) ∷ []) ≡ Some BoolSort }
    requires x { HasLits b.old x.now }
    requires y { HasLits b.old y.now }
    requires width { IsWidth (length x.now) }
    requires same { length y.now ≡ length x.now }
    ensures extends { OnOk result (Grows b.old b.new) }
    ensures made { IfOk result (λ z. HasOpValue b.new op (Word x.now ∷ Word y.now ∷ []) (Flag z)) }
{
    match op {
        Op::Eq => bit_gates::equal(b, x, y),
        Op::Ult => bit_gates::below(b, x, y),
        Op::Ule => bit_gates::below_or_equal(b, x, y),
        Op::Slt => bit_gates::signed_below(b, x, y),
        Op::Sle => bit_gates::signed_below_or_equal(b, x, y),
        _ => unreachable!(),
    }
}

/// The literals of the word that the operator makes of two words of one width, and that is of their width.
fn word_of_words(b: &mut Builder, op: Op, x: &[Lit], y: &[Lit]) -> Result<Word, NoMemory>
    requires sorted { op_sort op (BitsSort (length x.now) ∷ BitsSort (length y.now) ∷ []) ≡ Some (BitsSort (length x.now)) }
    requires x { HasLits b.old x.now }
    requires y { HasLits b.old y.now }
    requires width { IsWidth (length x.now) }
    requires same { length y.now ≡ length x.now }
    requires other { op ≢ Concat }
    ensures extends { OnOk result (Grows b.old b.new) }
    ensures made { IfOk result (λ zs. HasOpValue b.new op (Word x.now ∷ Word y.now ∷ []) (Word zs)) }
{
    match op {
        Op::Add => bit_gates::add(b, x, y),
        Op::Sub => bit_gates::subtract(b, x, y),
        Op::Mul => bit_gates::multiply(b, x, y),
        Op::Udiv => Ok(bit_gates::divide(b, x, y)?.quotient),
        Op::Urem => Ok(bit_gates::divide(b, x, y)?.remainder),
        Op::BvAnd => bit_gates::and_words(b, x, y),
        Op::BvOr => bit_gates::or_words(b, x, y),
        Op::BvXor => bit_gates::xor_words(b, x, y),
        Op::Shl => bit_gates::shift_left(b, x, y),
        Op::Lshr => bit_gates::shift_right(b, x, y),
        Op::Ashr => bit_gates::shift_signed(b, x, y),
        _ => unreachable!(),
    }
}
