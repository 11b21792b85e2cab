//! The literals of a value.
use bit_gates::Word;
use refute_check::Lit;

/// The literals of the value of a node.
#[derive(Debug, Drop)]
pub(crate) enum Place {
    /// Of a truth value: it is true where the literal is.
    Flag(Lit),
    /// Of a word: its bits, the lowest first.
    Word(Word),
}
