//! How a run ended, and the exit status that says so.

ghost use Rattle.std.specs.Prelude.{◌≡◌};
ghost use Rattle.ipdl_top.specs.Statuses.{status_number};

/// How a run ended.
#[derive(Clone, Copy, Debug, PartialEq, Eq)]
pub enum Status {
    /// What is asked is answered: for `check`, every step stands, and the ends of each theorem meet.
    Accepted,
    /// A step is wrong, or two ends differ.
    WrongStep,
    /// The source is no document, or an item is ill typed, or what a command names is refused.
    BadSource,
    /// The words are none of the forms.
    Usage,
    /// The source failed.
    ReadFault,
    /// The sink failed.
    WriteFault,
    /// Memory was refused.
    Memory,
    /// A count passed its limit.
    OverLimit,
}

impl Status {
    /// The exit status of the program.
    pub fn number(self) -> u8
        ensures { result ≡ status_number self }
    {
        self as u8
    }
}
