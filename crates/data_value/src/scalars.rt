//! The value of an operator at scalars.
ghost use Rattle.std.specs.Prelude.{◌≡◌, ◌<◌, ◌^◌, [], ◌∷◌, map, All, IsSome};
ghost use Rattle.data_value.specs.Ops.{scalar_value};
ghost use Rattle.data_value.specs.Sorts.{op_sort, IsWidth};
ghost use Rattle.data_value.specs.Values.{scalar_sort, IsScalar};
ghost use Rattle.data_value.specs.declared.DataSort.TheVariants.{Bits as Word, Bool as Truth};
ghost use Rattle.data_value.specs.declared.Scalar.TheVariants.{Flag, Bits};

use crate::{Op, Scalar, words};

/// The value of `op` at scalars in range, of sorts at which `sort_of` answers a sort; that is then `Bool` or `Bits`. It
/// takes no memory.
pub fn apply_scalar(op: Op, args: &[Scalar]) -> Scalar
    requires sorted { IsSome (op_sort op (map scalar_sort args.now)) }
    requires scalars { All IsScalar args.now }
    ensures { result ≡ scalar_value op args.now }
{
    match args {
        [a] => on_one(op, *a),
        [a, b] => on_two(op, *a, *b),
        [a, b, c] => on_three(op, *a, *b, *c),
        _ => unreachable!(),
    }
}

fn on_one(op: Op, a: Scalar) -> Scalar
    requires sorted { IsSome (op_sort op (scalar_sort a ∷ [])) }
    requires scalar { IsScalar a }
    ensures { result ≡ scalar_value op (a ∷ []) }
{
    match a {
        Scalar::Flag(flag) => on_flag(op, flag),
        Scalar::Bits { width, bits } => on_word(op, width, bits),
    }
}

fn on_two(op: Op, a: Scalar, b: Scalar) -> Scalar
    requires sorted { IsSome (op_sort op (scalar_sort a ∷ scalar_sort b ∷ [])) }
    requires first { IsScalar a }
    requires second { IsScalar b }
    ensures { result ≡ scalar_value op (a ∷ b ∷ []) }
{
    match (a, b) {
        (Scalar::Flag(p), Scalar::Flag(q)) => on_flags(op, p, q),
        (Scalar::Bits { width: v, bits: x }, Scalar::Bits { width: w, bits: y }) => {
            on_words(op, v, x, w, y)
        }
        _ => unreachable!(),
    }
}

fn on_three(op: Op, a: Scalar, b: Scalar, c: Scalar) -> Scalar
    requires { IsSome (op_sort op (scalar_sort a ∷ scalar_sort b ∷ scalar_sort c ∷ [])) }
    ensures { result ≡ scalar_value op (a ∷ b ∷ c ∷ []) }
{
    match (op, a) {
        (Op::Ite, Scalar::Flag(first)) => { if first { b } else { c } }
        _ => unreachable!(),
    }
}

fn on_flag(op: Op, a: bool) -> Scalar
    requires { IsSome (op_sort op (Truth ∷ [])) }
    ensures { result ≡ scalar_value op (Flag a ∷ []) }
{
    match op {
        Op::Not => Scalar::Flag(!a),
        _ => unreachable!(),
    }
}

fn on_flags(op: Op, a: bool, b: bool) -> Scalar
    requires { IsSome (op_sort op (Truth ∷ Truth ∷ [])) }
    ensures { result ≡ scalar_value op (Flag a ∷ Flag b ∷ []) }
{
    match op {
        Op::And => Scalar::Flag(a && b),
        Op::Or => Scalar::Flag(a || b),
        Op::Eq => Scalar::Flag(a == b),
        _ => unreachable!(),
    }
}

fn on_word(op: Op, width: u8, x: u64) -> Scalar
    requires sorted { IsSome (op_sort op (Word width ∷ [])) }
    requires width { IsWidth width }
    requires word { x < 2 ^ width }
    ensures { result ≡ scalar_value op (Bits width x ∷ []) }
{
    match op {
        Op::BvNot => word(width, words::complement(width, x)),
        Op::Neg => word(width, words::neg(width, x)),
        Op::Extract { hi, lo } => word(hi - lo + 1, words::extract(hi, lo, x)),
        Op::Zext(longer) => word(longer, x),
        Op::Sext(longer) => word(longer, words::sext(width, longer, x)),
        _ => unreachable!(),
    }
}

fn word(width: u8, bits: u64) -> Scalar
    ensures { result ≡ Bits width bits }
{
    Scalar::Bits { width, bits }
}

fn on_words(op: Op, v: u8, x: u64, w: u8, y: u64) -> Scalar
    requires sorted { IsSome (op_sort op (Word v ∷ Word w ∷ [])) }
    requires first { IsScalar (Bits v x) }
    requires second { IsScalar (Bits w y) }
    ensures { result ≡ scalar_value op (Bits v x ∷ Bits w y ∷ []) }
{
    match op {
        Op::Eq => Scalar::Flag(x == y),
        Op::Add => word(v, words::add(v, x, y)),
        Op::Sub => word(v, words::sub(v, x, y)),
        Op::Mul => word(v, words::mul(v, x, y)),
        Op::Udiv => word(v, words::udiv(v, x, y)),
        Op::Urem => word(v, words::urem(x, y)),
        Op::BvAnd => word(v, x & y),
        Op::BvOr => word(v, x | y),
        Op::BvXor => word(v, x ^ y),
        Op::Shl => word(v, words::shl(v, x, y)),
        Op::Lshr => word(v, words::lshr(v, x, y)),
        Op::Ashr => word(v, words::ashr(v, x, y)),
        Op::Ult => Scalar::Flag(x < y),
        Op::Ule => Scalar::Flag(x <= y),
        Op::Slt => Scalar::Flag(words::signed_rank(v, x) < words::signed_rank(v, y)),
        Op::Sle => Scalar::Flag(words::signed_rank(v, x) <= words::signed_rank(v, y)),
        Op::Concat => word(v + w, words::concat(v, x, w, y)),
        _ => unreachable!(),
    }
}
