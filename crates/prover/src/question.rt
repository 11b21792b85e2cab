//! Formulas as clauses, with what reads a model of them.
ghost use Rattle.std.specs.Prelude.{◌≡◌};
ghost use Rattle.bv_blast.specs.Inputs.{widths_of};

use bv_blast::Circuit;
use map_reads::Reads;

/// A formula as clauses, with what it takes to read a model of them as a valuation.
#[derive(Debug, Drop)]
pub struct Question {
    /// The formula without its maps.
    pub reads: Reads,
    /// The clauses, and the variables that are the bits of the words in `reads`.
    pub circuit: Circuit,
    /// The words that an assignment spells fit the inputs of the formula without maps.
    pub ghost fits: { widths_of circuit.inputs ≡ reads.flat.widths },
}
