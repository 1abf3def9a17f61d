ghost use Rattle.std.specs.Prelude.{◌≡◌};
ghost use Rattle.rules.specs.Status.{status_of};

/// Why a call is refused. A call that is refused changes nothing.
#[derive(Clone, Copy, Debug, PartialEq, Eq)]
pub enum Refusal {
    InvalidName = 3,
    InvalidId = 4,
    TooMany = 5,
    // of the state file alone
    InvalidSize = 8,
    InvalidNumber = 10,
    NotDefined = 11,
    ResourceInUse = 12,
    Unsatisfied = 13,
    IncorrectState = 14,
    CalledFromIsr = 18,
    InvalidPriority = 19,
    NotOwnerOfResource = 23,
    // lent bytes are no tables that agree
    InternalError = 25,
}

impl Refusal {
    /// Its status number: that of the RTEMS Classic headers.
    pub fn status(self) -> u32
        ensures { result ≡ status_of self }
    {
        self as u32
    }
}
