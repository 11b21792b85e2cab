// Operators by name.
ghost use Rattle.std.specs.Prelude.{◌≡◌, map, option_map};
ghost use Rattle.name_resolution.specs.Operators.{first_named, with_numbers, operator_of};

use crate::numbers::is_width;
use data_value::Op;
use sexp_text::Name;

/// The operators by name; `extract`, `zext` and `sext` with zeros in the place of their numbers.
pub const OPERATOR_NAMES: [(&str, Op); 28] = [
    ("not", Op::Not),
    ("and", Op::And),
    ("or", Op::Or),
    ("ite", Op::Ite),
    ("eq", Op::Eq),
    ("bvnot", Op::BvNot),
    ("neg", Op::Neg),
    ("add", Op::Add),
    ("sub", Op::Sub),
    ("mul", Op::Mul),
    ("udiv", Op::Udiv),
    ("urem", Op::Urem),
    ("bvand", Op::BvAnd),
    ("bvor", Op::BvOr),
    ("bvxor", Op::BvXor),
    ("shl", Op::Shl),
    ("lshr", Op::Lshr),
    ("ashr", Op::Ashr),
    ("ult", Op::Ult),
    ("ule", Op::Ule),
    ("slt", Op::Slt),
    ("sle", Op::Sle),
    ("concat", Op::Concat),
    ("extract", Op::Extract { hi: 0, lo: 0 }),
    ("zext", Op::Zext(0)),
    ("sext", Op::Sext(0)),
    ("get", Op::Get),
    ("put", Op::Put),
];

/// The operator that a name and the numbers behind it write; None where they write none. It takes no memory.
pub fn operator_of(name: &Name, numbers: &[u64]) -> Option<Op>
    ensures { result ≡ operator_of name.now numbers.now }
{
    match first_named(&OPERATOR_NAMES, name.as_slice()) {
        Some(op) => with_numbers(op, numbers),
        None => None,
    }
}

// The operator of the first row with this name.
fn first_named(rows: &[(&str, Op)], name: &[u8]) -> Option<Op>
    ensures { result ≡ first_named name.now (map (λ row. (row.0.now, row.1)) rows.now) }
{
    for row in rows {
        if row.0.as_bytes() == name {
            return Some(row.1);
        }
    }
    None
}

// An operator with its numbers put in; None where it takes other numbers.
fn with_numbers(op: Op, numbers: &[u64]) -> Option<Op>
    ensures { result ≡ with_numbers numbers.now op }
{
    match op {
        Op::Extract { .. } => extract_of(numbers),
        Op::Zext(_) => Some(Op::Zext(width_of(numbers)?)),
        Op::Sext(_) => Some(Op::Sext(width_of(numbers)?)),
        _ => { if numbers.is_empty() { Some(op) } else { None } }
    }
}

// The operator that takes out bits, by the high and the low one.
fn extract_of(numbers: &[u64]) -> Option<Op>
    ensures { result ≡ with_numbers numbers.now (Op.Extract 0 0) }
{
    match numbers {
        [hi, lo] => {
            if *hi < 64 && *lo < 64 {
                Some(Op::Extract {
                    hi: *hi as u8,
                    lo: *lo as u8,
                })
            } else {
                None
            }
        }
        _ => None,
    }
}

// The width that is the only number.
fn width_of(numbers: &[u64]) -> Option<u8>
    ensures zext { option_map Op.Zext result ≡ with_numbers numbers.now (Op.Zext 0) }
    ensures sext { option_map Op.Sext result ≡ with_numbers numbers.now (Op.Sext 0) }
{
    match numbers {
        [width] => {
            if is_width(*width) {
                Some(*width as u8)
            } else {
                None
            }
        }
        _ => None,
    }
}
