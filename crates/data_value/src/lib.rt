//! Values of data and the operators over them: truth values, bit vectors of 1 to 64 bits, and maps from words to
//! words. Bit vectors follow the theory `FixedSizeBitVectors` of SMT-LIB, also in division by zero and long shifts.
#![tactic(auto)]

mod applied;
mod apply;
mod compare;
pub mod conditions;
mod domain;
mod flat_formula;
mod ground;
pub mod laws;
mod map_value;
pub mod node_laws;
mod scalars;
mod sorts;
mod symbolic;
mod words;

pub use apply::apply_value;
pub use compare::{copy_value, fits_width, is_value, same_value, value_sort};
pub use domain::Domain;
pub use flat_formula::{
    Flat, FlatNode, FlatNodes, Places, Scalars, Widths, Words, are_words, flat_values, is_flat,
};
pub use ground::Ground;
pub use map_value::MapValue;
pub use no_memory::NoMemory;
pub use scalars::apply_scalar;
pub use sorts::{is_sort, same_sort, sort_of};
use sqlite_items::Items;
pub use symbolic::{Symbolic, View, is_same};

/// The sort of a value. Every width is from 1 to 64.
#[derive(Clone, Copy, Debug, Drop, PartialEq, Eq, Hash)]
pub enum DataSort {
    /// Truth values.
    Bool,
    /// Words of so many bits.
    Bits(u8),
    /// Maps from keys of the first width to words of the second.
    Map(u8, u8),
}

/// A truth value or a word.
#[derive(Clone, Copy, Debug, Drop, PartialEq, Eq, Hash)]
pub enum Scalar {
    /// A truth value.
    Flag(bool),
    /// The number `bits`, which is below 2 to the power of `width`; the width is from 1 to 64.
    Bits { width: u8, bits: u64 },
}

/// A truth value, a word or a map.
#[derive(Debug, Drop, PartialEq, Eq, Hash)]
pub enum Value {
    /// A truth value or a word.
    One(Scalar),
    /// A map.
    Map(MapValue),
}

/// An operator. Below, w is the width of its words and x and y are numbers below 2^w; "signed" reads two's complement.
/// The name in brackets is that of SMT-LIB, whose meaning each of them has, also where y is 0 or at least w.
#[derive(Clone, Copy, Debug, Drop, PartialEq, Eq, Hash)]
pub enum Op {
    /// The negation of a truth value (`not`).
    Not,
    /// The conjunction of two truth values (`and`).
    And,
    /// The disjunction of two truth values (`or`).
    Or,
    /// The second argument where the first, a truth value, is true, and else the third (`ite`). The two are truth
    /// values or words of one width.
    Ite,
    /// Whether two truth values, or two words of one width, are equal (`=`).
    Eq,
    /// Each bit of x turned: 2^w - 1 - x (`bvnot`).
    BvNot,
    /// 2^w - x modulo 2^w (`bvneg`).
    Neg,
    /// x + y modulo 2^w (`bvadd`).
    Add,
    /// x - y modulo 2^w (`bvsub`).
    Sub,
    /// x times y modulo 2^w (`bvmul`).
    Mul,
    /// x / y rounded down, and 2^w - 1 where y is 0 (`bvudiv`).
    Udiv,
    /// The remainder of x by y, and x where y is 0 (`bvurem`).
    Urem,
    /// Bit by bit, whether both are set (`bvand`).
    BvAnd,
    /// Bit by bit, whether one or both are set (`bvor`).
    BvOr,
    /// Bit by bit, whether exactly one is set (`bvxor`).
    BvXor,
    /// x times 2^y modulo 2^w, so 0 where y is w or more (`bvshl`).
    Shl,
    /// x / 2^y rounded down, so 0 where y is w or more (`bvlshr`).
    Lshr,
    /// As `Lshr` with copies of the top bit filled in, w copies where y is w or more (`bvashr`).
    Ashr,
    /// Whether x < y (`bvult`).
    Ult,
    /// Whether x <= y (`bvule`).
    Ule,
    /// Whether x < y, signed (`bvslt`).
    Slt,
    /// Whether x <= y, signed (`bvsle`).
    Sle,
    /// A word of v bits above one of w bits, the number x 2^w + y in v + w bits, which are at most 64 (`concat`).
    Concat,
    /// The bits `lo` to `hi` of x, counted from 0, in `hi` - `lo` + 1 bits, where `lo` <= `hi` < w (`extract`).
    Extract { hi: u8, lo: u8 },
    /// x in so many bits, at least w and at most 64 (`zero_extend` by the difference).
    Zext(u8),
    /// x in so many bits, at least w and at most 64, with copies of its top bit above it (`sign_extend` by the
    /// difference).
    Sext(u8),
    /// The word of a map at a key (`select`).
    Get,
    /// A map with a word put at a key (`store`).
    Put,
}

/// A list of values.
pub type Values = Items<Value>;

/// A value for each of a list of variables, in their order.
pub type Valuation = Items<Value>;

/// A list of sorts.
pub type DataSorts = Items<DataSort>;
