//! The status of the program, whose number is the exit code.

/// The status of the program, whose number is the exit code.
#[derive(Clone, Copy, Debug, PartialEq, Eq)]
pub enum Status {
    Ok = 0,
    Rejected = 1,
    Usage = 2,
    ReadFault = 3,
    WriteFault = 4,
    ModelRefused = 5,
    Overflow = 6,
    CertRefused = 7,
    Memory = 8,
}

impl Status {
    ghost use Rattle.std.specs.Prelude.{◌≡◌};
    ghost use Rattle.qss_top.specs.Statuses.{code_of};

    /// The exit code.
    pub fn code(self) -> u8
        ensures { result ≡ code_of self }
    {
        self as u8
    }
}
