use crate::parts::{Noun, Part, text_of};
use std::alloc::Global;
use us_findings::{Finding, KeyPath, Source, What};
use us_flows::{Place, TableName};

/// The most warnings of one kind that are told one by one.
const MAX_TOLD: usize = 10;

/// Where what a warning is about stands.
#[derive(Clone, Copy)]
pub(crate) enum Subject {
    /// A row of the trace, by its line.
    Row(usize),
    /// A table of the configuration, or a key of one.
    Key(Place, Key),
}

/// A key that a warning is about, or that it is about a table.
#[derive(Clone, Copy)]
pub(crate) enum Key {
    Table,
    Id,
    JitterUs,
    LeadTicks,
}

/// These, in the same order.
static KEYS: [Option<&str>; 4] = [None, Some("id"), Some("jitter_us"), Some("lead_ticks")];

impl Key {
    /// Where it is in the table at this place.
    pub(crate) fn path(self, place: Place) -> KeyPath<'static> {
        KeyPath::of(place, KEYS[self as usize])
    }
}

/// The top level of the configuration.
pub(crate) const TOP: Place = Place {
    table: TableName::Top,
    index: 0,
};

/// What looks wrong in a configuration and a trace. What is of the configuration has no lines before [`Warnings::located`].
#[derive(Drop)]
pub struct Warnings {
    pub(crate) alloc: Global,
    /// Whether memory was wanting for one of them. It is told at the end, so that each that adds one has but one way out.
    pub(crate) lacks_memory: bool,
    pub(crate) findings: Vec<Finding>,
    /// The tables and keys that these are about, those of the trace about none.
    pub(crate) paths: Vec<KeyPath<'static>>,
}

impl Warnings {
    /// None yet.
    pub fn new(alloc: Global) -> Warnings {
        Warnings {
            alloc,
            lacks_memory: false,
            findings: Vec::new(alloc),
            paths: Vec::new(alloc),
        }
    }

    /// Adds a warning in words that have a part in the place of each `#`.
    pub(crate) fn add(&mut self, subject: Subject, words: &str, parts: &[Part]) {
        match text_of(self.alloc, words, parts) {
            Ok(text) => self.push(subject, text),
            Err(_) => self.lacks_memory = true,
        }
    }

    /// Adds a warning with this text.
    fn push(&mut self, subject: Subject, text: String) {
        let (source, line, path) = match subject {
            Subject::Row(line) => (Source::Trace, line, Key::Table.path(TOP)),
            Subject::Key(place, key) => (Source::Config, 1, key.path(place)),
        };
        let finding = Finding {
            source,
            what: What::Warning,
            line,
            column: 1,
            text,
        };
        self.lacks_memory |= self.findings.push(finding).is_err();
        self.lacks_memory |= self.paths.push(path).is_err();
    }

    /// Adds how many there are that weren't told by themselves.
    pub(crate) fn add_others(&mut self, tally: &Tally, noun: Noun) {
        if let Some(subject) = tally.first_other {
            let others = tally.count.saturating_sub(MAX_TOLD) as u64;
            self.add(subject, "#", &[Part::Counted(others, noun)]);
        }
    }
}

/// How many warnings of one kind there are, which come in the order of their lines. The first ones are told one by one,
/// and the others are counted.
#[derive(Clone, Copy)]
pub(crate) struct Tally {
    count: usize,
    /// What the first of the others is about.
    first_other: Option<Subject>,
}

impl Tally {
    pub(crate) fn new() -> Tally {
        Tally {
            count: 0,
            first_other: None,
        }
    }

    /// Counts one more, and answers whether it is to be told by itself.
    pub(crate) fn add(&mut self, subject: Subject) -> bool {
        self.count = self.count.saturating_add(1);
        if self.count <= MAX_TOLD {
            return true;
        }
        if self.first_other.is_none() {
            self.first_other = Some(subject);
        }
        false
    }
}
