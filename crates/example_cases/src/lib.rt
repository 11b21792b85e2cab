//! What the programs of examples share. A case is a form in a line of a file: a call by its name, with its arguments. [`run`] reads
//! the files that the program's words name, and writes each case with what its call answers.
#![tactic(auto)]

mod cases;
mod failed;
mod forms;
mod lines;
mod texts;

pub use cases::{Calls, run};
pub use failed::Failed;
pub use forms::{is_word, list, number, small, word};
pub use lines::put_lines;
pub use texts::Texts;
