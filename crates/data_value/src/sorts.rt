//! The sort of an operator's value.
ghost use Rattle.std.specs.Prelude.{◌≡◌, Some};
ghost use Rattle.data_value.specs.Sorts.{op_sort, is_sort, is_width, same_sort, is_scalar_sort, flag_sort, flags_sort, choice_sort, equality_sort, word_sort, same_words_sort, get_sort, put_sort};
ghost use Rattle.data_value.specs.declared.DataSort.TheVariants.{Bits, Bool as Flags};
ghost use Rattle.data_value.specs.declared.Op.TheVariants.{Concat, Extract, Zext};

use crate::{DataSort, Op};

/// The sort of `op`'s value at arguments of these sorts, and None exactly where it takes no such arguments. Widths in
/// `sorts` that are out of range are compared and added like others. It takes no memory.
pub fn sort_of(op: Op, sorts: &[DataSort]) -> Option<DataSort>
    ensures { result ≡ op_sort op sorts.now }
{
    match op {
        Op::Not => sort_of_flag(sorts),
        Op::And | Op::Or => sort_of_flags(sorts),
        Op::Ite => sort_of_choice(sorts),
        Op::Eq => sort_of_equality(sorts),
        Op::BvNot | Op::Neg => sort_of_word(sorts),
        Op::Add
        | Op::Sub
        | Op::Mul
        | Op::Udiv
        | Op::Urem
        | Op::BvAnd
        | Op::BvOr
        | Op::BvXor
        | Op::Shl
        | Op::Lshr
        | Op::Ashr => sort_of_words(sorts),
        Op::Ult | Op::Ule | Op::Slt | Op::Sle => sort_of_order(sorts),
        Op::Concat => sort_of_concat(sorts),
        Op::Extract { hi, lo } => sort_of_extract(hi, lo, sorts),
        Op::Zext(width) | Op::Sext(width) => sort_of_extension(width, sorts),
        Op::Get => sort_of_get(sorts),
        Op::Put => sort_of_put(sorts),
    }
}

/// Whether the widths of a sort are from 1 to 64. It takes no memory.
pub fn is_sort(sort: DataSort) -> bool
    ensures { result ≡ is_sort sort }
{
    match sort {
        DataSort::Bool => true,
        DataSort::Bits(width) => is_width(width),
        DataSort::Map(key, word) => is_width(key) && is_width(word),
    }
}

fn is_width(width: u8) -> bool
    ensures { result ≡ is_width width }
{
    1 <= width && width <= 64
}

fn is_scalar(sort: DataSort) -> bool
    ensures { result ≡ is_scalar_sort sort }
{
    !matches!(sort, DataSort::Map(..))
}

/// Whether two sorts are equal. It takes no memory.
pub fn same_sort(a: DataSort, b: DataSort) -> bool
    ensures { result ≡ same_sort a b }
{
    match (a, b) {
        (DataSort::Bool, DataSort::Bool) => true,
        (DataSort::Bits(v), DataSort::Bits(w)) => v == w,
        (DataSort::Map(j, v), DataSort::Map(k, w)) => j == k && v == w,
        _ => false,
    }
}

fn sort_of_flag(sorts: &[DataSort]) -> Option<DataSort>
    ensures { result ≡ flag_sort sorts.now }
{
    match sorts {
        [DataSort::Bool] => Some(DataSort::Bool),
        _ => None,
    }
}

fn sort_of_flags(sorts: &[DataSort]) -> Option<DataSort>
    ensures { result ≡ flags_sort sorts.now }
{
    match sorts {
        [DataSort::Bool, DataSort::Bool] => Some(DataSort::Bool),
        _ => None,
    }
}

fn sort_of_choice(sorts: &[DataSort]) -> Option<DataSort>
    ensures { result ≡ choice_sort sorts.now }
{
    match sorts {
        [DataSort::Bool, a, b] => {
            if is_scalar(*a) && same_sort(*a, *b) {
                Some(*a)
            } else {
                None
            }
        }
        _ => None,
    }
}

fn sort_of_equality(sorts: &[DataSort]) -> Option<DataSort>
    ensures { result ≡ equality_sort sorts.now }
{
    match sorts {
        [a, b] => {
            if is_scalar(*a) && same_sort(*a, *b) {
                Some(DataSort::Bool)
            } else {
                None
            }
        }
        _ => None,
    }
}

fn sort_of_word(sorts: &[DataSort]) -> Option<DataSort>
    ensures { result ≡ word_sort (λ w. Some (Bits w)) sorts.now }
{
    match sorts {
        [DataSort::Bits(w)] => Some(DataSort::Bits(*w)),
        _ => None,
    }
}

fn sort_of_words(sorts: &[DataSort]) -> Option<DataSort>
    ensures { result ≡ same_words_sort (λ w. Bits w) sorts.now }
{
    match sorts {
        [DataSort::Bits(v), DataSort::Bits(w)] => {
            if v == w {
                Some(DataSort::Bits(*v))
            } else {
                None
            }
        }
        _ => None,
    }
}

fn sort_of_order(sorts: &[DataSort]) -> Option<DataSort>
    ensures { result ≡ same_words_sort (λ _. Flags) sorts.now }
{
    match sorts {
        [DataSort::Bits(v), DataSort::Bits(w)] => {
            if v == w { Some(DataSort::Bool) } else { None }
        }
        _ => None,
    }
}

fn sort_of_concat(sorts: &[DataSort]) -> Option<DataSort>
    ensures { result ≡ op_sort Concat sorts.now }
{
    match sorts {
        [DataSort::Bits(v), DataSort::Bits(w)] => {
            let width = *v as u16 + *w as u16;
            if width <= 64 {
                Some(DataSort::Bits(width as u8))
            } else {
                None
            }
        }
        _ => None,
    }
}

fn sort_of_extract(hi: u8, lo: u8, sorts: &[DataSort]) -> Option<DataSort>
    ensures { result ≡ op_sort (Extract hi lo) sorts.now }
{
    match sorts {
        [DataSort::Bits(w)] => {
            if lo <= hi && hi < *w {
                Some(DataSort::Bits(hi - lo + 1))
            } else {
                None
            }
        }
        _ => None,
    }
}

fn sort_of_extension(width: u8, sorts: &[DataSort]) -> Option<DataSort>
    ensures { result ≡ op_sort (Zext width) sorts.now }
{
    match sorts {
        [DataSort::Bits(w)] => {
            if *w <= width && width <= 64 {
                Some(DataSort::Bits(width))
            } else {
                None
            }
        }
        _ => None,
    }
}

fn sort_of_get(sorts: &[DataSort]) -> Option<DataSort>
    ensures { result ≡ get_sort sorts.now }
{
    match sorts {
        [DataSort::Map(k, v), DataSort::Bits(w)] => {
            if k == w {
                Some(DataSort::Bits(*v))
            } else {
                None
            }
        }
        _ => None,
    }
}

fn sort_of_put(sorts: &[DataSort]) -> Option<DataSort>
    ensures { result ≡ put_sort sorts.now }
{
    match sorts {
        [DataSort::Map(k, v), DataSort::Bits(w), DataSort::Bits(u)] => {
            if k == w && v == u {
                Some(DataSort::Map(*k, *v))
            } else {
                None
            }
        }
        _ => None,
    }
}
