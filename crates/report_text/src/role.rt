//! Which of a command's texts is meant.

/// The role of a text in a command. Its name in a report is the role's words, in small letters, joined by `-`.
#[derive(Clone, Copy, Debug, PartialEq, Eq)]
pub enum Role {
    /// The semantics of the left side of a check.
    LeftSemantics,
    /// The semantics of the right side of a check.
    RightSemantics,
    /// The program of the left side of a check.
    LeftProgram,
    /// The program of the right side of a check.
    RightProgram,
    /// The cuts and points of a check.
    Points,
    /// The semantics of a run.
    Semantics,
    /// The program of a run.
    Program,
    /// The state that a run starts from.
    Start,
}
