use crate::documents::number_of;
use crate::drafts::Draft;
use crate::keys::Keys;
use crate::lists::Drafts;
use crate::titles::Title;
use toml::Table;
use us_flows::{is_optional, keeps};

/// A table of a document, beside the keys that it may have.
#[derive(Clone, Copy)]
pub(crate) struct Shape<'d> {
    pub(crate) keys: Keys,
    pub(crate) table: &'d Table,
    pub(crate) title: Title,
}

impl<'d> Shape<'d> {
    /// Adds what is wrong with the keys and the values of this table.
    pub(crate) fn add_to(&self, drafts: &mut Drafts<'d>) {
        self.add_missing(drafts);
        for (key, value) in self.table {
            match self.keys.rule_of(key) {
                Some(rule) if keeps(rule, value) => {}
                Some(rule) => drafts.push(Draft::wrong(self.title, key, rule, value)),
                None => drafts.push(Draft::unknown(self.title, key, self.keys, self.table)),
            }
        }
    }

    /// Adds the keys that the table has to have, and lacks.
    fn add_missing(&self, drafts: &mut Drafts<'d>) {
        for place in 0..self.keys.places() {
            if let Some((key, rule)) = self.keys.at(place) {
                if !is_optional(rule) & self.table.get(key).is_none() {
                    drafts.push(Draft::missing(self.title, key, rule));
                }
            }
        }
    }

    /// The number of a key that keeps its rule; 0 where it doesn't, or is missing.
    pub(crate) fn number(&self, key: &str) -> u64 {
        match (self.keys.rule_of(key), self.table.get(key)) {
            (Some(rule), Some(value)) if keeps(rule, value) => number_of(value),
            _ => 0,
        }
    }
}
