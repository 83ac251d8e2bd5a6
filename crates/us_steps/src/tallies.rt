ghost use Rattle.std.specs.Prelude.{◌≡◌, ◌+◌, ◌^◌, ◌<◌, ℕ, not, ◌||◌, if◌then◌else◌, length, get_or, slice_index, slice_set, Some, None, true, false, option_map, IfOk, IsTrue};
ghost use Rattle.std.specs.List.{AllByRecursion};
ghost use Rattle.us_steps.specs.Machines as machine;
ghost use Rattle.us_steps.specs.Tallies as spec;
ghost use Rattle.us_requests.specs.Cuts as requests;
ghost use Rattle.us_steps.specs.Tallies.{IsReady, IsTallied};
ghost use Rattle.us_steps.specs.declared.steps.Step.TheVariants as step;

use crate::Step;
use std::alloc::Global;
use std::marker::Model;
use us_requests::Ask;
use us_slots::NoMemory;

/// What stands after each step: the words, the cut, and what was done so far.
struct Tally {
    words: Vec<u64>,
    cut: Vec<u64>,
    added: Vec<bool>,
    taken: Vec<bool>,
    opened: Vec<bool>,
    built: Vec<bool>,
    settled: bool,
}

impl Model for Tally {
    ghost Value = { spec.Tally };

    ghost view = { λ l. record {
      words = l.words.items;
      cut = l.cut.items;
      added = l.added.items;
      taken = l.taken.items;
      opened = l.opened.items;
      built = l.built.items;
      settled = l.settled;
    } };
}

/// Gives the tally up. It is written out so that it is one step wherever a tally ends.
impl Drop for Tally {
    fn drop(self) {
        let Tally {
            words: _,
            cut: _,
            added: _,
            taken: _,
            opened: _,
            built: _,
            settled: _,
        } = self;
    }
}

impl Tally {
    /// Before the first step.
    fn new(alloc: Global, words: &[u64], rows: usize, channels: usize) -> Result<Tally, NoMemory>
        ensures { IfOk result (λ tally. tally ≡ spec.opening_tally words.now rows channels) }
    {
        let cut = vec![in alloc; 0; words.len()]?;
        let added = vec![in alloc; false; rows]?;
        let taken = vec![in alloc; false; words.len()]?;
        let opened = vec![in alloc; false; channels]?;
        let built = vec![in alloc; false; channels]?;
        let words = words.to_vec(alloc)?;
        Ok(Tally {
            words,
            cut,
            added,
            taken,
            opened,
            built,
            settled: false,
        })
    }

    /// The cut and the words.
    fn into_parts(self) -> (Vec<u64>, Vec<u64>)
        ensures cut { result.0.items ≡ self.cut }
        ensures words { result.1.items ≡ self.words }
    {
        let Tally {
            words,
            cut,
            added: _,
            taken: _,
            opened: _,
            built: _,
            settled: _,
        } = self;
        (cut, words)
    }

    /// Makes a step, and tells whether it has a place there.
    fn step(&mut self, rows: &[Ask], step: Step) -> bool
        requires ready { IsReady rows.now self.old }
        ensures { spec.after rows.now self.old step ≡ if result then Some self.new else None }
    {
        match step {
            Step::Add { row, .. } => self.add(rows, row),
            Step::Take { word, .. } => self.take(word),
            Step::Open { channel } => self.open(channel),
            Step::Built { channel } => self.build(channel),
        }
    }

    /// Adds the bytes of a row to its word, unless it was added.
    fn add(&mut self, rows: &[Ask], row: usize) -> bool
        requires ready { IsReady rows.now self.old }
        ensures { (if get_or self.old.added row true then None else Some (spec.with_row rows.now self.old row))
            ≡ (if result then Some self.new else None) }
    {
        let added = self.added.as_mut_slice();
        if !mark(added, row) {
            return false;
        }
        let ask = rows[row];
        let words = self.words.as_mut_slice();
        raise(words, ask);
        true
    }

    /// Moves what a word has into the cut, unless it was taken or a channel was opened.
    fn take(&mut self, word: usize) -> bool
        requires words { length self.old.taken ≡ length self.old.words }
        requires cut { length self.old.cut ≡ length self.old.words }
        requires room { (q : ℕ) → slice_index self.old.cut q + slice_index self.old.words q < 2 ^ 62 }
        ensures { (if self.old.settled || get_or self.old.taken word true then None
            else Some (spec.without_word self.old word)) ≡ (if result then Some self.new else None) }
    {
        if self.settled {
            return false;
        }
        let taken = self.taken.as_mut_slice();
        if !mark(taken, word) {
            return false;
        }
        self.cut[word] += self.words[word];
        self.words[word] = 0;
        true
    }

    /// Gives a channel to a worker, unless it was opened.
    fn open(&mut self, channel: usize) -> bool
        ensures { (if get_or self.old.opened channel true then None else Some (spec.with_open self.old channel))
            ≡ (if result then Some self.new else None) }
    {
        let opened = self.opened.as_mut_slice();
        if !mark(opened, channel) {
            return false;
        }
        self.settled = true;
        true
    }

    /// Tells that a channel is built, if it was opened, and unless it was built.
    fn build(&mut self, channel: usize) -> bool
        requires { length self.old.built ≡ length self.old.opened }
        ensures { (if not (get_or self.old.opened channel false) || get_or self.old.built channel true then None
            else Some (spec.with_built self.old channel)) ≡ (if result then Some self.new else None) }
    {
        if !is_set(&self.opened, channel) {
            return false;
        }
        let built = self.built.as_mut_slice();
        mark(built, channel)
    }

    /// Whether all is done.
    fn is_done(&self) -> bool
        ensures { result ≡ spec.is_done self.now }
    {
        are_set(&self.added)
            && are_set(&self.taken)
            && are_set(&self.opened)
            && are_set(&self.built)
    }
}

/// The cut of these steps, and what they leave in the words, if they are complete.
pub(crate) fn tallied(
    alloc: Global,
    words: &[u64],
    rows: &[Ask],
    channels: usize,
    steps: &[Step],
) -> Result<Option<(Vec<u64>, Vec<u64>)>, NoMemory>
    requires rows { AllByRecursion (λ ask. ask.cluster < length words.now) rows.now }
    requires room { (q : ℕ) → q < length words.now →
        slice_index words.now q + requests.asked rows.now q < 2 ^ 62 }
    ensures { IfOk result (λ found. IsTallied words.now rows.now channels steps.now
        (option_map (λ parts. (parts.0.items, parts.1.items)) found)) }
{
    let mut tally = Tally::new(alloc, words, rows.len(), channels)?;
    if walk(&mut tally, rows, steps) {
        Ok(Some(tally.into_parts()))
    } else {
        Ok(None)
    }
}

/// Makes these steps, and tells whether each has a place there, and all is done then.
fn walk(tally: &mut Tally, rows: &[Ask], steps: &[Step]) -> bool
    requires { IsReady rows.now tally.old }
    ensures { spec.run rows.now tally.old steps.now ≡ (if result then Some tally.new else None) }
{
    for next in steps {
        if !tally.step(rows, *next) {
            return false;
        }
    }
    tally.is_done()
}

/// Sets a flag, and tells whether it is there and wasn't set.
fn mark(flags: &mut [bool], place: usize) -> bool
    ensures value { result ≡ not (get_or flags.old place true) }
    ensures flags { IsTrue result → flags.new ≡ slice_set flags.old place true }
    ensures inside { IsTrue result → place < length flags.old }
{
    if place >= flags.len() || flags[place] {
        return false;
    }
    flags[place] = true;
    true
}

/// Whether a flag is there and set.
fn is_set(flags: &[bool], place: usize) -> bool
    ensures { result ≡ get_or flags.now place false }
{
    place < flags.len() && flags[place]
}

/// Whether all flags are set.
fn are_set(flags: &[bool]) -> bool
    ensures { result ≡ machine.are_set flags.now }
{
    for flag in flags {
        if !*flag {
            return false;
        }
    }
    true
}

/// Adds the bytes of a row to its word.
fn raise(words: &mut [u64], ask: Ask)
    requires inside { ask.cluster < length words.old }
    requires room { slice_index words.old ask.cluster + ask.bytes < 2 ^ 64 }
    ensures { words.new ≡ machine.raised words.old (Some ask) }
{
    words[usize::from(ask.cluster)] += u64::from(ask.bytes);
}
