ghost use Rattle.std.specs.Prelude.{◌≡◌, None, replicate, slice_index_or, IfOk};
ghost use Rattle.std.specs.Option.{is_some};
ghost use Rattle.us_reports.specs.Order.{earlier};
ghost use Rattle.us_credit_rules.specs.Ends as ends;
ghost use Rattle.us_credit_rules.specs.Tellings as spec;

use crate::ends::unless;
use std::alloc::{AllocError, Global};
use us_flows::Channel;
use us_reports::{Place, earlier};

/// What lines tell of one thing.
#[derive(Clone, Copy)]
pub(crate) enum Told<T> {
    /// No line does.
    Nothing,
    /// One does.
    Once(T),
    /// More do.
    Several,
}

impl<T: Copy> Told<T> {
    /// With one more.
    pub(crate) fn and(self, line: T) -> Told<T>
        ensures { result ≡ spec.told_more line self }
    {
        match self {
            Told::Nothing => Told::Once(line),
            Told::Once(_) | Told::Several => Told::Several,
        }
    }
}

/// What lines at the end of a report tell of things with numbers, and where one first tells of none.
#[derive(Drop)]
pub(crate) struct Tellings<T> {
    /// By the numbers of things.
    pub(crate) told: Vec<Told<T>>,
    /// The place of the first line that tells of nothing.
    pub(crate) strange: Option<Place>,
}

impl<T: Copy + Drop> Tellings<T> {
    /// Of so many things, before all lines.
    pub(crate) fn new(alloc: Global, count: usize) -> Result<Tellings<T>, AllocError>
        ensures { IfOk result (λ none. (none.told.items ≡ replicate count spec.nothing) × (none.strange ≡ None)) }
    {
        let mut told = Vec::new(alloc);
        for _thing in 0..count {
            told.push(Told::Nothing)?;
        }
        Ok(Tellings {
            told,
            strange: None,
        })
    }

    /// What is told of the thing with this number.
    pub(crate) fn of(&self, thing: usize) -> Told<T>
        ensures { result ≡ slice_index_or self.now.told.items thing spec.nothing }
    {
        if thing < self.told.len() {
            return self.told[thing];
        }
        Told::Nothing
    }

    /// A line more of the flow with this id, which tells of the thing with this number, if of any.
    #[inline(never)]
    pub(crate) fn take(
        &mut self,
        channels: &[Channel],
        rounds: u32,
        id: u64,
        thing: Option<usize>,
        line: T,
    )
        ensures told { self.new.told.items ≡ spec.told_with thing line self.old.told.items }
        ensures strange { self.new.strange ≡
            earlier channels.now self.old.strange (ends.unless (is_some thing) (ends.end_place rounds id)) }
    {
        self.strange = earlier(channels, self.strange, unless(thing.is_some(), rounds, id));
        if let Some(thing) = thing
            && thing < self.told.len()
        {
            self.told[thing] = self.told[thing].and(line);
        }
    }
}
