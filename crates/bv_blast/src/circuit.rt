//! Clauses with the variables of their inputs.
ghost use Rattle.std.specs.Prelude.{All};
ghost use Rattle.bv_blast.specs.Inputs.{IsBits};

use refute_check::Clauses;
use sqlite_items::Items;

/// The variables of the bits of a word, the lowest bit first.
pub type Bits = Items<usize>;

/// A list of words by the variables of their bits.
pub type BitLists = Items<Bits>;

/// Clauses, and the variables that are the bits of a formula's inputs.
#[derive(Debug, Drop)]
pub struct Circuit {
    /// The clauses, over these variables and others.
    pub clauses: Clauses,
    /// For each input the variables of its bits, from 1 to 64 of them.
    pub inputs: BitLists,
    /// The variables of the inputs are below those of the clauses.
    pub ghost scoped: { All (IsBits clauses.vars) inputs },
}
