ghost use Rattle.std.specs.Prelude.{◌≡◌, ◌+◌, ◌^◌, ◌<◌};

/// How many lines there were of grants, and how many of missed occurrences.
#[derive(Clone, Copy)]
pub struct LineTally {
    /// The G lines.
    pub granted: u64,
    /// The M lines.
    pub missed: u64,
}

impl LineTally {
    /// Counts these lines too.
    pub(crate) fn add(&mut self, granted: usize, missed: usize)
        requires granted_room { self.old.granted + granted < 2 ^ 64 }
        requires missed_room { self.old.missed + missed < 2 ^ 64 }
        ensures granted { self.new.granted ≡ self.old.granted + granted }
        ensures missed { self.new.missed ≡ self.old.missed + missed }
    {
        self.granted += granted as u64;
        self.missed += missed as u64;
    }
}
