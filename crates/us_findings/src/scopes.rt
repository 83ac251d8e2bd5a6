use us_flows::{Place, TableName};

/// The keys of the profiles of a channel.
static PROFILES: [&str; 3] = ["long", "short", "unsolicited"];

/// A table in which something is looked for: the top level, an item of a list, or a profile of one.
#[derive(Clone, Copy)]
pub(crate) struct Scope {
    pub(crate) place: Place,
    pub(crate) profile: Option<&'static str>,
}

impl Scope {
    /// The top level.
    pub(crate) const TOP: Scope = Scope {
        place: Place {
            table: TableName::Top,
            index: 0,
        },
        profile: None,
    };

    /// Its profile with this name; none where it has no profiles.
    pub(crate) fn profile_named(self, name: &str) -> Option<Scope> {
        if self.profile.is_some() {
            return None;
        }
        for profile in &PROFILES {
            if *profile == name {
                return Some(Scope {
                    place: self.place,
                    profile: Some(*profile),
                });
            }
        }
        None
    }
}
