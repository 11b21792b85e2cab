// Raw items: what each form of a text's top level says, word by word.
use sexp_text::Name;
use sqlite_items::Items;

/// Which kind of text the items stand in.
#[derive(Clone, Copy, Debug, PartialEq, Eq)]
pub enum FileKind {
    Semantics,
    Program,
    Points,
    Start,
}

/// A sort as it is written.
#[derive(Drop)]
pub enum RawSort {
    /// `bool`.
    Bool,
    /// `(bits N)`, with any N below 2^64.
    Bits(u64),
    /// `(map N N)`: the width of the keys and that of the words, any two numbers below 2^64.
    Map(u64, u64),
    /// A word but `bool`, reserved or not.
    Named(Name),
}

/// Sorts in the order of the text.
pub type RawSorts = Items<RawSort>;

/// A variable with its sort, `(WORD SORT)`.
#[derive(Drop)]
pub struct RawVar {
    pub name: Name,
    pub sort: RawSort,
}

/// Variables in the order of the text.
pub type RawVars = Items<RawVar>;

/// Numbers below 2^64 in the order of the text.
pub type Numbers = Items<u64>;

/// Pairs of numbers below 2^64 in the order of the text.
pub type NumberPairs = Items<(u64, u64)>;

/// A pattern, an expression or a ground term as it is written.
#[derive(Drop)]
pub enum RawTree {
    /// A word that isn't reserved: a variable.
    Word(Name),
    /// A bare number below 2^64, whose width the place tells.
    Number(u64),
    /// `true` or `false`.
    Flag(bool),
    /// `(bits WIDTH NUMBER)`, with any two numbers below 2^64.
    Bits(u64, u64),
    /// `(map WIDTH WIDTH (KEY WORD) ..)`, with any numbers below 2^64. It stands in no pattern.
    Map {
        /// The width of the keys in bits.
        key: u64,
        /// The width of the words in bits.
        word: u64,
        /// The keys, each with its word.
        entries: NumberPairs,
    },
    /// A constructor's name, which isn't reserved, with its arguments.
    Con(Name, RawTrees),
    /// An operator's name with as many numbers and arguments as the operator takes. It stands in expressions alone.
    Op {
        name: Name,
        /// The numbers behind the name: the high and the low bit of `extract`, the width of `zext` and `sext`.
        numbers: Numbers,
        args: RawTrees,
    },
}

/// Trees in the order of the text.
pub type RawTrees = Items<RawTree>;

/// What a rule asks for beside its head.
#[derive(Drop)]
pub enum RawDemand {
    /// `(let PAT EXPR)`.
    Let(RawTree, RawTree),
    /// `(let PAT (row WORD EXPR))`: the row of a table with a key.
    LetRow {
        pattern: RawTree,
        table: Name,
        key: RawTree,
    },
    /// `(when EXPR)`.
    When(RawTree),
}

/// Demands in the order of the text.
pub type RawDemands = Items<RawDemand>;

/// One item.
#[derive(Drop)]
pub enum Item {
    /// `(sort WORD)`.
    Sort(Name),
    /// `(con WORD (SORT ..) WORD)`.
    Con {
        name: Name,
        args: RawSorts,
        sort: Name,
    },
    /// `(table WORD N SORT)`: the width of its keys in bits, and the sort of its terms.
    Table {
        name: Name,
        key: u64,
        sort: RawSort,
    },
    /// `(config WORD)`.
    Config(Name),
    /// `(rule WORD VARS PAT DEMAND .. => EXPR)`.
    Rule {
        name: Name,
        vars: RawVars,
        head: RawTree,
        demands: RawDemands,
        outcome: RawTree,
    },
    /// `(row WORD N GROUND)`: the table, the key and the term.
    Row {
        table: Name,
        key: u64,
        term: RawTree,
    },
    /// `(cut SIDE WORD VARS PAT (when EXPR) ..)`.
    Cut {
        /// Whether the side is the left one.
        left: bool,
        name: Name,
        vars: RawVars,
        pattern: RawTree,
        whens: RawTrees,
    },
    /// `(point WORD VARS EXPR EXPR (when EXPR) ..)`: the left term and the right one.
    Point {
        name: Name,
        vars: RawVars,
        left: RawTree,
        right: RawTree,
        whens: RawTrees,
    },
    /// A ground term: the state that a start text writes.
    Start(RawTree),
}

/// Items in the order of the text.
pub type ItemList = Items<Item>;
