ghost use Rattle.std.specs.Prelude.{◌≡◌};
ghost use Rattle.us_calendar.specs.Kept.{always_active, kept_at, speaks_of};

/// Of what kind the intervals of an entry are in a round: of the one that begins at `at` it is kept whether the flow was
/// active when it began, and all others are of the kind that the flow is.
#[derive(Clone, Copy)]
pub(crate) struct Kinds {
    /// When the interval of the first unsettled occurrence begins, in quarter microseconds.
    pub(crate) at: u32,
    pub(crate) kept: bool,
    pub(crate) active: bool,
}

impl Kinds {
    /// Those of an entry whose activity isn't detected: all are active.
    pub(crate) fn always() -> Kinds
        ensures { result ≡ always_active }
    {
        Kinds {
            at: 0,
            kept: true,
            active: true,
        }
    }

    /// Whether an interval that begins at this time is an active one.
    pub(crate) fn speaks(self, time: u32) -> bool
        ensures { result ≡ speaks_of self time }
    {
        if time == self.at {
            self.kept
        } else {
            self.active
        }
    }

    /// What is kept for the interval that begins at this time, where the round ends then: of the one at `at` it was `waiting`
    /// before.
    pub(crate) fn waiting_at(self, waiting: Option<bool>, end: u32, time: u32) -> Option<bool>
        ensures { result ≡ kept_at self waiting end time }
    {
        if time < end {
            Some(self.speaks(time))
        } else if time == self.at {
            waiting
        } else {
            None
        }
    }
}
