ghost use Rattle.us_findings.specs.Places.{IsWithin};

use us_flows::Place;

/// A table of a configuration, or a key in it.
#[derive(Clone, Copy)]
pub struct KeyPath<'a> {
    /// The table: the top level, or an item of a list, which counts also the items that are no tables.
    pub place: Place,
    /// The profile in which the key stands, such as `long`.
    pub profile: Option<&'a str>,
    /// The key; none where the table itself is meant.
    pub key: Option<&'a str>,
}

impl<'a> KeyPath<'a> {
    /// A key of a table that is no profile, or the table itself.
    pub fn of(place: Place, key: Option<&'a str>) -> KeyPath<'a> {
        KeyPath {
            place,
            profile: None,
            key,
        }
    }
}

/// Where it stands, in bytes from the start of the text.
#[derive(Clone, Copy)]
pub struct Spot {
    /// Where the key begins, or the first header that names it. Where it isn't met, its profile or else its table; where
    /// that isn't met either, the text.
    pub at: usize,
    /// Where the key's value begins and ends; at 0 where it has none of its own.
    pub from: usize,
    pub to: usize,
}

impl Spot {
    /// That of a thing that has no value of its own.
    pub(crate) fn of(at: usize) -> Spot {
        Spot { at, from: 0, to: 0 }
    }

    /// The same, in a text of so many bytes.
    pub(crate) fn within(self, len: usize) -> Spot
        ensures { IsWithin len result }
    {
        let to = self.to.min(len);
        Spot {
            at: self.at.min(len),
            from: self.from.min(to),
            to,
        }
    }
}

/// Something that is looked for, and the spot that stands for it so far.
#[derive(Clone, Copy)]
pub(crate) struct Found<'a> {
    pub(crate) wanted: KeyPath<'a>,
    pub(crate) spot: Spot,
    /// Whether it is the thing's own, and not that of its table or profile.
    pub(crate) is_own: bool,
}

impl Found<'_> {
    /// Takes the spot of a table or a key that is met, where it has to do with what is wanted. A thing's own first one
    /// stays.
    pub(crate) fn meet(&mut self, met: KeyPath<'_>, spot: Spot) {
        let wanted = self.wanted;
        if self.is_own | (wanted.place != met.place) {
            return;
        }
        let is_its_profile = met.profile.is_none() & (wanted.profile == met.key);
        if (wanted.profile == met.profile) & (wanted.key == met.key) {
            self.spot = spot;
            self.is_own = true;
        } else if met.key.is_none() | is_its_profile {
            self.spot.at = spot.at;
        }
    }
}
