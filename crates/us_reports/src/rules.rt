ghost use Rattle.std.specs.Prelude.{◌≡◌};
ghost use Rattle.us_reports.specs.Rules.{code_of};

use crate::place::Place;

/// A rule of the checker. They are looked at in this order.
#[derive(Clone, Copy, Debug, PartialEq, Eq)]
pub enum Rule {
    /// P1: the maps file is made of records, and each body is in the grammar.
    Records,
    /// P2: there is a record for each round and channel, which says of itself what it must.
    Headings,
    /// P3: in each MAP reserves and grants lie inside, no minislot has two of them, and the elements are these and the
    /// gaps between them.
    Minislots,
    /// P4: each occurrence whose window closes in the run is granted in its window, or missed in the round in which that
    /// closes.
    Occurrences,
    /// P5: no flow is credited more than its rate and its burst allow.
    Rates,
    /// P6: what is credited was asked for, and is what the grant carries; the last lines tell what is left, and which flows
    /// are active.
    Credits,
}

impl Rule {
    /// Its code, P1 to P6.
    pub fn code(self) -> &'static str
        ensures { result.now ≡ code_of self }
    {
        match self {
            Rule::Records => "P1",
            Rule::Headings => "P2",
            Rule::Minislots => "P3",
            Rule::Occurrences => "P4",
            Rule::Rates => "P5",
            Rule::Credits => "P6",
        }
    }
}

/// A rule that is broken, and where it is first.
#[derive(Clone, Copy)]
pub struct Breach {
    /// The rule.
    pub rule: Rule,
    /// The place.
    pub place: Place,
}
