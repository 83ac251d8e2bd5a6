ghost use Rattle.std.specs.Prelude.{◌≡◌, ◌+◌, ◌^◌, ◌<◌, ◌≤◌, length, replicate, zip, slice_index, IfOk, vec_capacity};
ghost use Rattle.std.specs.List.{AllByRecursion};
ghost use Rattle.us_flows.specs.Clusters.{words_of};
ghost use Rattle.us_flows.specs.Lawful.{AreTables};
ghost use Rattle.us_split.specs.Asking as spec;
ghost use Rattle.us_split.specs.Requested.{requested_in};
ghost use Rattle.us_split.specs.Askers.{AreAskers};

use std::alloc::Global;
use std::marker::Model;
use std::snapshot::Snapshot;
use us_flows::Config;
use us_slots::NoMemory;

// Which turn is whose.
mod cluster_turns;

// Who asks in a cut.
mod cuts;

// Lists of turns.
mod listing;

use cluster_turns::{numbers_of, places_of};
use cuts::first_in_cut;
use listing::{drop_answered, list_turn, note, note_pending};

/// Who asks in a round: what is outstanding of each word, and the turns of which something is. Only clusters ask, so nothing
/// is outstanding of the words of a flow's activity. Between rounds, and while clusters ask for more, `left` is the same as
/// `outstanding`; credits of a round lower it alone, until the round is settled.
///
/// Only [`Askers::new`] takes memory.
pub struct Askers {
    tables: Snapshot<Config>,

    // of each turn the word of its cluster, and of each word the turn of its cluster, if it is a cluster's
    numbers: Vec<u16>,
    places: Vec<Option<u16>>,

    // bytes by word
    outstanding: Vec<u64>,
    left: Vec<u64>,

    // places of turns, rising
    asking: Vec<u16>,
    pending: Vec<u16>,
}

impl Model for Askers {
    ghost Value = { spec.Asking };

    ghost view = { λ a. record {
      tables = a.tables.value;
      outstanding = a.outstanding.items;
      left = a.left.items;
      pending = a.pending.items;
    } };

    ghost invariant = { λ a. AreAskers a.tables.value a.numbers.items a.places.items a.outstanding.items a.left.items
        a.asking.items (vec_capacity a.asking) (vec_capacity a.pending) };
}

/// Gives all lists up. It is written out so that it is one step wherever askers end.
impl Drop for Askers {
    fn drop(self) {
        let Askers {
            tables: _,
            numbers: _,
            places: _,
            outstanding: _,
            left: _,
            asking: _,
            pending: _,
        } = self;
    }
}

impl Askers {
    /// Before round 0 nothing is outstanding.
    pub fn new(alloc: Global, config: &Config) -> Result<Askers, NoMemory>
        ensures { IfOk result (λ askers. askers ≡ spec.nobody_asks config.now) }
    {
        let words = config.clusters();
        let numbers = numbers_of(alloc, config)?;
        let places = places_of(alloc, &numbers, words)?;
        let outstanding = no_bytes(alloc, words)?;
        let left = no_bytes(alloc, words)?;
        let asking = Vec::with_capacity(alloc, numbers.len())?;
        let pending = Vec::with_capacity(alloc, numbers.len())?;
        Ok(Askers {
            tables: Snapshot::of(config),
            numbers,
            places,
            outstanding,
            left,
            asking,
            pending,
        })
    }

    /// The bytes that are outstanding of each word, by number, before the credits of this round.
    pub fn outstanding(&self) -> &[u64]
        ensures value { result.now ≡ self.now.outstanding }
        ensures words { length result.now ≡ length (words_of self.now.tables) }
        ensures requested { requested_in (words_of self.now.tables) result.now ≡ result.now }
        ensures range { AllByRecursion (λ bytes. bytes < 2 ^ 62) result.now }
    {
        &self.outstanding
    }

    /// Those of them that are left after these credits.
    pub fn left(&self) -> &[u64]
        ensures value { result.now ≡ self.now.left }
        ensures words { length result.now ≡ length (words_of self.now.tables) }
        ensures requested { requested_in (words_of self.now.tables) result.now ≡ result.now }
        ensures range { AllByRecursion (λ bytes. bytes < 2 ^ 62) result.now }
    {
        &self.left
    }

    /// The places of the turns of which bytes are outstanding, in the order of turns.
    pub fn asking(&self) -> &[u16]
        ensures { result.now ≡ spec.asking_in self.now.tables self.now.outstanding }
    {
        &self.asking
    }

    /// The places of the turns that were pending when the round was settled, in the order of turns.
    pub fn pending(&self) -> &[u16]
        ensures { result.now ≡ self.now.pending }
    {
        &self.pending
    }

    /// The cluster of a word asks for so many bytes more. A word of activity asks for nothing.
    pub fn add(&mut self, word: usize, bytes: u64)
        requires word { word < length self.old.outstanding }
        requires room { slice_index self.old.outstanding word + bytes < 2 ^ 62 }
        ensures { self.new ≡ spec.asked_more word bytes self.old }
    {
        let Some(place) = self.places[word] else {
            return;
        };
        if bytes == 0 {
            return;
        }
        let before = self.outstanding[word];
        list_turn(&mut self.asking, place, before);
        self.outstanding[word] = before + bytes;
        self.left[word] += bytes;
    }

    /// Each cluster asks for the bytes that a cut has of its word. What it has of words of activity is passed over.
    pub fn add_all(&mut self, cuts: &[u64])
        requires words { length cuts.now ≡ length self.old.outstanding }
        requires room { AllByRecursion (λ pair. pair.0 + pair.1 < 2 ^ 62) (zip self.old.outstanding cuts.now) }
        ensures { self.new ≡ spec.all_asked_more cuts.now self.old }
    {
        let words = self.outstanding.len();
        let mut word = first_in_cut(cuts, 0);
        while word < words {
            self.add(word, cuts[word]);
            word = first_in_cut(cuts, word + 1);
        }
    }

    /// So many of the bytes that are left of a cluster were granted; it is told by the number of its word.
    pub fn credit(&mut self, cluster: usize, bytes: u64)
        requires cluster { cluster < length self.old.left }
        requires within { bytes ≤ slice_index self.old.left cluster }
        ensures { self.new ≡ spec.credited cluster bytes self.old }
    {
        self.left[cluster] -= bytes;
    }

    /// Ends the round: what is left is outstanding. Those of whom bytes are left and who were credited nothing are pending,
    /// and those of whom nothing is left ask no more.
    pub fn settle(&mut self)
        ensures { self.new ≡ spec.settled self.old }
    {
        note_pending(
            &mut self.pending,
            &self.asking,
            &self.numbers,
            &self.outstanding,
            &self.left,
        );
        drop_answered(&mut self.asking, &self.numbers, &self.left);
        let outstanding = self.outstanding.as_mut_slice();
        outstanding.copy_from_slice(&self.left);
    }
}

/// The places of the turns of which bytes are outstanding, in the order of turns.
pub(crate) fn places_of_askers(
    alloc: Global,
    config: &Config,
    outstanding: &[u64],
) -> Result<Vec<u16>, NoMemory>
    requires lawful { AreTables config.now }
    requires words { length outstanding.now ≡ length (words_of config.now) }
    ensures { IfOk result (λ places. places.items ≡ spec.asking_in config.now outstanding.now) }
{
    let numbers = numbers_of(alloc, config)?;
    places_asking(alloc, &numbers, outstanding)
}

/// The places of those of these words of which bytes are outstanding.
fn places_asking(alloc: Global, numbers: &[u16], outstanding: &[u64]) -> Result<Vec<u16>, NoMemory>
    requires few { length numbers.now ≤ 65536 }
    requires words { AllByRecursion (λ number. number < length outstanding.now) numbers.now }
    ensures { IfOk result (λ places. places.items ≡ spec.asking outstanding.now numbers.now) }
{
    let mut places = Vec::with_capacity(alloc, numbers.len())?;
    for (place, number) in numbers.iter().enumerate() {
        let asks = outstanding[usize::from(*number)] > 0;
        note(&mut places, place as u16, asks);
    }
    Ok(places)
}

/// No bytes of so many words.
fn no_bytes(alloc: Global, words: usize) -> Result<Vec<u64>, NoMemory>
    ensures { IfOk result (λ bytes. bytes.items ≡ replicate words 0) }
{
    Ok(vec![in alloc; 0u64; words]?)
}
