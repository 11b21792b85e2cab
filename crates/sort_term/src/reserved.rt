ghost use Rattle.std.specs.Prelude.{◌≡◌, bytes_eq};
ghost use Rattle.std.specs.List.{list_any};
ghost use Rattle.sort_term.specs.Names.{is_reserved_word};

/// The words that no sort, constructor, table or variable has as its name: those that begin an item or a part of one,
/// the sorts and literals of data, the arrow, and the names of the operators. A rule, cut or point may have one.
pub const RESERVED_WORDS: [&str; 48] = [
    "sort", "con", "table", "config", "rule", "cut", "point", "row", "vars", "let", "when",
    "undef", "left", "right", "bool", "bits", "map", "true", "false", "=>", "not", "and", "or",
    "ite", "eq", "bvnot", "neg", "add", "sub", "mul", "udiv", "urem", "bvand", "bvor", "bvxor",
    "shl", "lshr", "ashr", "ult", "ule", "slt", "sle", "concat", "extract", "zext", "sext", "get",
    "put",
];

fn is_among(words: &[&str], word: &[u8]) -> bool
    ensures { result ≡ list_any (λ w. bytes_eq w.now word.now) words.now }
{
    words.iter().any(|w| w.as_bytes() == word)
}

/// Whether a word is reserved. It takes no memory.
pub fn is_reserved(word: &[u8]) -> bool
    ensures { result ≡ is_reserved_word word.now }
{
    is_among(&RESERVED_WORDS, word)
}
