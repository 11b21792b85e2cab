//! What is decided of a formula.
use data_value::Valuation;

/// What is decided of a formula.
#[derive(Debug, Drop)]
pub enum Answer {
    /// No valuation of the variables makes it true.
    Never,
    /// This valuation makes it true.
    Holds(Valuation),
}
