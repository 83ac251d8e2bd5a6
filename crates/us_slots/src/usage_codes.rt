ghost use Rattle.std.specs.Prelude.{◌≡◌, ℕ, SomeIff};
ghost use Rattle.us_slots.specs.UsageCodes as codes;

use std::marker::Model;

/// How many interval usage codes there are: they have four bits (the standard's).
const IUC_COUNT: u8 = 16;

/// An interval usage code (IUC), 0 to 15: what may be sent in the minislots of a MAP element.
#[derive(Clone, Copy, Debug, PartialEq, Eq, Hash)]
pub struct Iuc {
    number: u8,
}

impl Model for Iuc {
    ghost Value = { ℕ };

    ghost view = { λ i. i.number };

    ghost invariant = { λ i. codes.IsUsageCode i.number };

    ghost inverse = { λ n. record { number = n } };
}

impl Iuc {
    /// The code of this number, `None` above 15.
    pub fn new(number: u8) -> Option<Iuc>
        ensures { SomeIff result (codes.IsUsageCode number) number }
    {
        if number < IUC_COUNT {
            Some(Iuc { number })
        } else {
            None
        }
    }

    /// The code's number, 0 to 15.
    pub fn number(self) -> u8
        ensures value { result ≡ self }
        ensures in_range { codes.IsUsageCode self }
    {
        self.number
    }
}

// The codes that a schedule uses, by their names in the standard. They are functions: a clause can't name a
// constant of a type with a model, so nothing would hold a constant to its number.
impl Iuc {
    /// Request, IUC 1.
    pub fn request() -> Iuc
        ensures { result ≡ codes.request }
    {
        Iuc { number: 1 }
    }

    /// Initial Maintenance, IUC 3.
    pub fn initial_maintenance() -> Iuc
        ensures { result ≡ codes.initial_maintenance }
    {
        Iuc { number: 3 }
    }

    /// Station Maintenance, IUC 4.
    pub fn station_maintenance() -> Iuc
        ensures { result ≡ codes.station_maintenance }
    {
        Iuc { number: 4 }
    }

    /// Null, IUC 7: the end of a MAP's elements.
    pub fn null() -> Iuc
        ensures { result ≡ codes.null }
    {
        Iuc { number: 7 }
    }

    /// Advanced PHY Short Data Grant, IUC 9.
    pub fn short_data_grant() -> Iuc
        ensures { result ≡ codes.short_data_grant }
    {
        Iuc { number: 9 }
    }

    /// Advanced PHY Long Data Grant, IUC 10. An element of it after the Null is a data grant pending (ours).
    pub fn long_data_grant() -> Iuc
        ensures { result ≡ codes.long_data_grant }
    {
        Iuc { number: 10 }
    }

    /// Advanced PHY Unsolicited Grant, IUC 11.
    pub fn unsolicited_grant() -> Iuc
        ensures { result ≡ codes.unsolicited_grant }
    {
        Iuc { number: 11 }
    }
}
