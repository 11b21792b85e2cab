// How a call ends.
ghost use Rattle.std.specs.Prelude.{◌≡◌};
ghost use Rattle.keq_cli.specs.Status.{code_of};

/// How a call of the program ends.
#[derive(Clone, Copy, Debug, PartialEq, Eq)]
pub enum Status {
    /// The relation that the points denote is a grounded cut-bisimulation of the two systems.
    Equivalent,
    /// It is a grounded cut-simulation of the right system by the left one alone. The report names the first point where the
    /// left has a cut successor without a partner.
    Refines,
    /// It is grounded. The report names the first point where the right has a cut successor without a partner.
    Unmatched,
    /// It isn't grounded. The report names the first point that isn't, and the test that it has.
    NotGrounded,
    /// A text does not load, or a point has variables or conditions. The report says which is the first, and of a text its
    /// first fault.
    Refused,
    /// A text could not be fetched. Nothing was written.
    ReadFault,
    /// The report could not be written whole.
    WriteFault,
    /// There was no memory. Nothing was written.
    NoMemory,
    /// The words of the command line have no form that is known.
    Usage,
    /// A run came to its end. The report is the run.
    Done,
}

impl Status {
    /// The number that the process ends with. It takes no memory.
    pub fn code(self) -> u8
        ensures { result ≡ code_of self }
    {
        match self {
            Status::Equivalent => 0,
            Status::Refines => 1,
            Status::Unmatched => 2,
            Status::NotGrounded => 3,
            Status::Refused => 4,
            Status::ReadFault => 5,
            Status::WriteFault => 6,
            Status::NoMemory => 7,
            Status::Usage => 8,
            Status::Done => 0,
        }
    }
}
