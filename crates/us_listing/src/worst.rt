ghost use Rattle.std.specs.Prelude.{◌≡◌};

/// The worst that is found.
#[derive(Clone, Copy)]
pub enum Worst {
    /// There is nothing to tell.
    Nothing,
    /// Something looks wrong.
    Warning,
    /// Something is wrong.
    Error,
}

impl Worst {
    ghost use Rattle.us_listing.specs.Listings.{with_warnings};

    /// That of so many more warnings: an error outweighs them.
    pub(crate) fn warned(self, warnings: usize) -> Worst
        ensures { result ≡ with_warnings self warnings }
    {
        match self {
            Worst::Nothing if warnings > 0 => Worst::Warning,
            _ => self,
        }
    }
}
