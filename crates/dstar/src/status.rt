//! How a call of the program ends.

ghost use Rattle.std.specs.Prelude.{◌≡◌};

/// How a call of the program ends.
#[derive(Clone, Copy, Drop, Debug, PartialEq, Eq)]
pub enum Status {
    /// All was written.
    Ok,
    /// The words have no form.
    Usage,
    /// The input failed.
    ReadFault,
    /// The output failed.
    WriteFault,
    /// The input has more than 16,777,216 bytes.
    TooLong,
    /// The input is no document: the code of what it breaks, and the place.
    Document(u8, u32),
    /// An allocation was refused.
    NoMemory,
    /// The keeper failed.
    KeeperFault,
    /// The key has no leaf left.
    Spent,
    /// The wire failed.
    WireFault,
    /// The answer is no, and was written.
    No,
}

impl Status {
    ghost use Rattle.dstar.specs.Codes.{code_of};

    /// The status with which the process ends, 0 to 10.
    pub fn code(&self) -> u8
        ensures { result ≡ code_of self.now }
    {
        match self {
            Status::Ok => 0,
            Status::Usage => 1,
            Status::ReadFault => 2,
            Status::WriteFault => 3,
            Status::TooLong => 4,
            Status::Document(_, _) => 5,
            Status::NoMemory => 6,
            Status::KeeperFault => 7,
            Status::Spent => 8,
            Status::WireFault => 9,
            Status::No => 10,
        }
    }
}
