ghost use Rattle.std.specs.Prelude.{◌≡◌};

/// How the program ends.
#[derive(Clone, Copy)]
pub enum Status {
    /// It did what it was asked. Of a check the verdict is that both files are lawful, and a lint found nothing.
    Done,
    /// The verdict of a check is that a rule is broken.
    Broken,
    /// What a lint read looks wrong, and has no error.
    Warned,
    /// Its words are refused.
    Usage,
    /// What it read is refused, or has an error that a lint found.
    Refused,
    /// A file or stream failed.
    DeviceFailed,
    /// Memory was wanting.
    NoMemory,
}

impl Status {
    ghost use Rattle.mapsim.specs.Statuses.{code_of};

    /// The exit status.
    pub fn code(self) -> u8
        ensures { result ≡ code_of self }
    {
        match self {
            Status::Done => 0,
            Status::Broken | Status::Warned => 1,
            Status::Usage => 2,
            Status::Refused => 3,
            Status::DeviceFailed => 4,
            Status::NoMemory => 5,
        }
    }
}
