use crate::drafts::Draft;
use crate::spots::KeyPath;
use std::alloc::Global;
use us_flows::ConfigFault;

/// The most findings of a configuration that are told, and not counted alone.
const MAX_TOLD: usize = 50;

/// Findings, of which the first ones are kept and the others counted.
pub(crate) struct Drafts<'a> {
    /// The fault that the program answers. A place is kept for the first finding of it.
    fault: ConfigFault,
    has_first: bool,
    /// Whether memory was wanting for one of them. It is told at the end, so that each that adds one has but one way out.
    pub(crate) lacks_memory: bool,
    pub(crate) kept: Vec<Draft<'a>>,
    /// Where these stand, in their order, and behind these a key of another table, if the first one names one.
    pub(crate) paths: Vec<KeyPath<'a>>,
    /// How many there are beside those that are kept.
    pub(crate) more: usize,
}

impl Drop for Drafts<'_> {
    fn drop(self) {
        let Drafts {
            fault: _,
            has_first: _,
            lacks_memory: _,
            kept: _,
            paths: _,
            more: _,
        } = self;
    }
}

impl<'a> Drafts<'a> {
    /// None yet, of a configuration with this fault.
    pub(crate) fn new(alloc: Global, fault: ConfigFault) -> Drafts<'a> {
        Drafts {
            fault,
            has_first: false,
            lacks_memory: false,
            kept: Vec::new(alloc),
            paths: Vec::new(alloc),
            more: 0,
        }
    }

    /// Adds a finding.
    pub(crate) fn push(&mut self, draft: Draft<'a>) {
        let is_first = !self.has_first & (draft.fault == self.fault);
        let free = MAX_TOLD - usize::from(!self.has_first);
        if is_first | (self.kept.len() < free) {
            self.has_first |= is_first;
            self.look_for(draft.path);
            self.lacks_memory |= self.kept.push(draft).is_err();
        } else {
            self.more = self.more.saturating_add(1);
        }
    }

    /// Where one of them stands is to be looked for, or a key of another table.
    pub(crate) fn look_for(&mut self, path: KeyPath<'a>) {
        self.lacks_memory |= self.paths.push(path).is_err();
    }
}
