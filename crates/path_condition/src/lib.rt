//! What a run over unknowns has supposed so far, and where it stands.
#![tactic(auto)]

mod laws;
mod leaf;
mod path;

pub use laws::{leaves_depend_on_variables, leaves_stay};
pub use leaf::{Leaf, Leaves};
pub use no_memory::NoMemory;
pub use path::{Path, begin, extend};
