//! Formulas from forms. A variable is a word that is its name and its sort: `p:bool`, `x:8` for 8 bits, `m:8:16` for a map from words of 8
//! bits to words of 16. A constant is a value: `true`, `false`, a word as `(WIDTH BITS)`, or a map as `(map KEYWIDTH WORDWIDTH (KEY WORD)
//! ..)`. All else is an operator at formulas, as `(add x:8 (8 1))` and `((extract 7 4) x:8)`.
#![tactic(auto)]

mod names;
mod nodes;
mod reading;

pub use names::Names;
pub use nodes::{applied, constant, variable};
pub use reading::formula;
