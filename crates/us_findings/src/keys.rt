use crate::sentences::Sentence;
use us_flows::{Key, Rule, SchedulingType, all_flow_keys};

/// The keys that a table may have.
#[derive(Clone, Copy)]
pub(crate) enum Keys {
    /// These.
    Listed(&'static [Key]),
    /// Those of flows of a type.
    OfFlows(SchedulingType),
}

impl Keys {
    /// That a key isn't one of these.
    pub(crate) fn none_of(self) -> Sentence {
        Sentence::plain(match self {
            Keys::Listed(_) => "no key of this table",
            Keys::OfFlows(SchedulingType::BestEffort) => "no key of a flow of type 2",
            Keys::OfFlows(SchedulingType::NonRealTimePolling) => "no key of a flow of type 3",
            Keys::OfFlows(SchedulingType::RealTimePolling) => "no key of a flow of type 4",
            Keys::OfFlows(SchedulingType::ActivityDetection) => "no key of a flow of type 5",
            Keys::OfFlows(SchedulingType::UnsolicitedGrant) => "no key of a flow of type 6",
        })
    }

    /// How many places there are for them.
    pub(crate) fn places(self) -> usize {
        match self {
            Keys::Listed(keys) => keys.len(),
            Keys::OfFlows(_) => all_flow_keys().len(),
        }
    }

    /// The key at a place, none where it is one of flows of other types.
    pub(crate) fn at(self, place: usize) -> Option<Key> {
        match self {
            Keys::Listed(keys) => keys.get(place).copied(),
            Keys::OfFlows(kind) => match all_flow_keys().get(place) {
                Some((name, types, rule)) if types.have(kind) => Some((*name, *rule)),
                _ => None,
            },
        }
    }

    /// The rule of a key, none where it isn't one of these.
    pub(crate) fn rule_of(self, key: &str) -> Option<Rule> {
        for place in 0..self.places() {
            if let Some((name, rule)) = self.at(place) {
                if name == key {
                    return Some(rule);
                }
            }
        }
        None
    }
}
