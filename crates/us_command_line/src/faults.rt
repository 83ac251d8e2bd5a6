use std::alloc::AllocError;

/// Why words are refused.
#[derive(Drop)]
pub enum WordsFault {
    /// They are none that there are: what is printed, with all line feeds.
    Usage(String),
    /// Memory was wanting.
    NoMemory,
}

impl From<AllocError> for WordsFault {
    ghost use Rattle.std.specs.Prelude.{◌≡◌};
    ghost use Rattle.us_command_line.specs.declared.faults.WordsFault.TheVariants.{NoMemory};

    ghost from_gives = { λ _ fault. fault ≡ NoMemory };

    fn from(_: AllocError) -> WordsFault {
        WordsFault::NoMemory
    }
}
