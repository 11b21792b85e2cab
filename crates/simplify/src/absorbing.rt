//! Words with which an operator gives one scalar at all words.
ghost use Rattle.std.specs.Prelude.{◌≡◌, ℕ, true, IfSome};
ghost use Rattle.data_value.specs.declared.Scalar.TheVariants.{Flag, Bits};
ghost use Rattle.data_value.specs.Values.{IsScalar};
ghost use Rattle.simplify.specs.Rewrites.{IsAbsorbing, IsAbsorbingFirst, IsOpposite};

use crate::sums::ones;
use data_value::{Op, Scalar};

/// The scalar that an operator gives at all words on the left of this one, if it is the same for all.
pub(crate) fn absorbed(op: Op, width: u8, bits: u64) -> Option<Scalar>
    requires { IsScalar (Bits width bits) }
    ensures { IfSome result (IsAbsorbing op width bits) }
{
    if gives_zero(op, width, bits) {
        return Some(Scalar::Bits { width, bits: 0 });
    }
    if gives_itself(op, width, bits) {
        return Some(Scalar::Bits { width, bits });
    }
    match compared(op, width, bits) {
        Some(flag) => Some(Scalar::Flag(flag)),
        None => None,
    }
}

// Whether an operator gives zero at all words on the left of this one.
fn gives_zero(op: Op, width: u8, bits: u64) -> bool
    requires { IsScalar (Bits width bits) }
    ensures { result ≡ true → IsAbsorbing op width bits (Bits width 0) }
{
    match op {
        Op::Mul => bits == 0,
        Op::Urem => bits == 1,
        Op::BvAnd => bits == 0,
        Op::Shl => width as u64 <= bits,
        Op::Lshr => width as u64 <= bits,
        _ => false,
    }
}

// Whether an operator gives this very word at all words on the left of it.
fn gives_itself(op: Op, width: u8, bits: u64) -> bool
    requires { IsScalar (Bits width bits) }
    ensures { result ≡ true → IsAbsorbing op width bits (Bits width bits) }
{
    match op {
        Op::BvOr => bits == ones(width),
        _ => false,
    }
}

// The truth value that a comparison gives at all words on the left of this one: none is below the least word, and each is at most the
// greatest.
fn compared(op: Op, width: u8, bits: u64) -> Option<bool>
    requires { IsScalar (Bits width bits) }
    ensures { IfSome result (λ flag. IsAbsorbing op width bits (Flag flag)) }
{
    let least_signed = 1u64 << (width - 1);
    match op {
        Op::Ult => at(bits, 0, false),
        Op::Ule => at(bits, ones(width), true),
        Op::Slt => at(bits, least_signed, false),
        Op::Sle => at(bits, least_signed - 1, true),
        _ => None,
    }
}

// A truth value where two numbers are the same.
fn at(bits: u64, number: u64, flag: bool) -> Option<bool>
    ensures { IfSome result (λ f. (bits ≡ number) × (f ≡ flag)) }
{
    if bits == number { Some(flag) } else { None }
}

/// The scalar that an operator gives at all words on the right of this one, if it is the same for all and not that on the left.
pub(crate) fn absorbed_first(op: Op, width: u8, bits: u64) -> Option<Scalar>
    requires { IsScalar (Bits width bits) }
    ensures { IfSome result (IsAbsorbingFirst op width bits) }
{
    if keeps_zero(op, bits) {
        return Some(Scalar::Bits { width, bits: 0 });
    }
    match opposite(op) {
        Some(other) => {
            match compared(other, width, bits) {
                Some(flag) => Some(Scalar::Flag(!flag)),
                None => None,
            }
        }
        None => None,
    }
}

// Whether an operator gives zero at all words on the right of this one.
fn keeps_zero(op: Op, bits: u64) -> bool
    ensures { result ≡ true → (w : ℕ) → IsAbsorbingFirst op w bits (Bits w 0) }
{
    match op {
        Op::Urem => bits == 0,
        Op::Shl => bits == 0,
        Op::Lshr => bits == 0,
        _ => false,
    }
}

// The comparison that gives two words exchanged the other truth value.
fn opposite(op: Op) -> Option<Op>
    ensures { IfSome result (IsOpposite op) }
{
    match op {
        Op::Ult => Some(Op::Ule),
        Op::Ule => Some(Op::Ult),
        Op::Slt => Some(Op::Sle),
        Op::Sle => Some(Op::Slt),
        _ => None,
    }
}
