ghost use Rattle.std.specs.Prelude.{◌≡◌, ◌≤◌, ◌++◌, ◌==◌, ◌<◌, ℕ, List, Some, None, find, length, if◌then◌else◌, slice_index_or, IfOk, OnOk};
ghost use Rattle.std.specs.Option.{option_copied};
ghost use Rattle.us_flows.specs.Tables.{Tables};
ghost use Rattle.us_flows.specs.Lawful.{AreTables};
ghost use Rattle.us_flows.specs.Ranges.{max_clusters, max_clusters_of_flow};
ghost use Rattle.us_flows.specs.Clusters.{Turn, requesting, table_order, turns_for};
ghost use Rattle.us_credit_rules.specs.Seats as spec;
ghost use Rattle.us_credit_rules.specs.Seats.{AreSeats, IsIndex};

use std::alloc::{AllocError, Global};
use std::marker::Model;
use us_flows::{Config, Flow};

/// The ids of flows are below this.
const IDS: u64 = 65_536;

/// A flow has at most so many clusters.
const LISTS: u64 = 2;

/// The clusters that make requests, in table order, found by what lines tell of them.
pub(crate) struct Seats<'a> {
    seats: Vec<Seat<'a>>,
    // in table order, by the id of the flow and the place among its clusters
    places: Vec<Option<u16>>,
}

impl<'a> Model for Seats<'a> {
    ghost Value = { List Turn };

    ghost view = { λ s. s.seats.items };

    ghost invariant = { λ s. IsIndex s.seats.items s.places.items };
}

/// Gives them up. It is written out so that it is one step wherever they end.
impl<'a> Drop for Seats<'a> {
    fn drop(self) {
        let Seats {
            seats: _,
            places: _,
        } = self;
    }
}

impl<'a> Seats<'a> {
    /// Those of a configuration.
    pub(crate) fn new(alloc: Global, config: &'a Config) -> Result<Seats<'a>, AllocError>
        ensures { IfOk result (λ seats. seats ≡ table_order config.now) }
    {
        let seats = seats_of(alloc, config)?;
        let places = places_of(alloc, &seats)?;
        Ok(Seats { seats, places })
    }

    /// All of them, in table order.
    pub(crate) fn all(&self) -> &[Seat<'a>]
        ensures { result.now ≡ self.now }
    {
        &self.seats
    }

    /// The cluster at a place of the flow with an id.
    pub(crate) fn find(&self, id: u64, list: u64) -> Option<&Seat<'a>>
        ensures { option_copied result ≡ find (spec.names id list) self.now }
    {
        let places = &self.places;
        if id >= IDS || list >= LISTS {
            return None;
        }
        let place = place_at(places, id * LISTS + list)?;
        self.seats.get(usize::from(place))
    }

    /// The place of the flow with this id, if it makes requests. `seat` is the cluster that a line with this id names, if any: then
    /// its flow needn't be looked for.
    pub(crate) fn flow(&self, id: u64, seat: Option<&Seat>) -> Option<usize>
        ensures { (t : Tables) (list : ℕ) → AreTables t → self.now ≡ table_order t →
            option_copied seat.entry ≡ find (spec.names id list) self.now →
            result ≡ spec.flow_in (find (spec.names id 0) self.now) }
    {
        match seat {
            Some(seat) => Some(seat.place()),
            None => self.first(id),
        }
    }

    /// The place among the flows of the one with an id, by its first cluster.
    #[inline(never)]
    fn first(&self, id: u64) -> Option<usize>
        ensures { result ≡ spec.flow_in (find (spec.names id 0) self.now) }
    {
        let seat = self.find(id, 0)?;
        Some(seat.place())
    }

    /// The word of the cluster at a place of the flow with an id.
    pub(crate) fn word(&self, id: u64, list: u64) -> Option<usize>
        ensures { result ≡ spec.word_of id list self.now }
    {
        let seat = self.find(id, list)?;
        Some(usize::from(seat.word()))
    }
}

/// A SID cluster that makes requests, where it stands in the tables.
pub(crate) struct Seat<'a> {
    word: u16,
    place: usize,
    list: usize,
    flow: &'a Flow,
    sids: &'a [u16],
}

impl<'a> Model for Seat<'a> {
    ghost Value = { Turn };

    ghost view = { λ s. record {
      number = s.word;
      place = s.place;
      cluster = record { flow = s.flow.now; list = s.list; sids = s.sids.now };
    } };
}

impl<'a> Drop for Seat<'a> {
    fn drop(self) {
        let Seat {
            word: _,
            place: _,
            list: _,
            flow: _,
            sids: _,
        } = self;
    }
}

impl<'a> Seat<'a> {
    /// The number of its word.
    pub(crate) fn word(&self) -> u16
        ensures { result ≡ self.now.number }
    {
        self.word
    }

    /// The place of its flow among the flows.
    pub(crate) fn place(&self) -> usize
        ensures { result ≡ self.now.place }
    {
        self.place
    }

    /// Its flow.
    pub(crate) fn flow(&self) -> &'a Flow
        ensures { result.now ≡ self.now.cluster.flow }
    {
        self.flow
    }

    /// Its SIDs, one for each channel of the flow.
    pub(crate) fn sids(&self) -> &'a [u16]
        ensures { result.now ≡ self.now.cluster.sids }
    {
        self.sids
    }

    /// Its flow's id and its place as one number.
    fn code(&self) -> u32
        requires { self.now.cluster.list < 2 }
        ensures { result ≡ spec.code_of self.now }
    {
        u32::from(self.flow.id()) * LISTS as u32 + self.list as u32
    }
}

/// All clusters that make requests, in table order.
pub(crate) fn seats_of<'a>(alloc: Global, config: &'a Config) -> Result<Vec<Seat<'a>>, AllocError>
    ensures value { IfOk result (λ seats. seats.items ≡ table_order config.now) }
    ensures lawful { AreTables config.now }
{
    let mut seats = Vec::new(alloc);
    let mut word = 0;
    for (place, flow) in config.flows().iter().enumerate() {
        push_seats(&mut seats, place, word, flow)?;
        word += flow.words() as u16;
    }
    Ok(seats)
}

/// Puts the clusters of the flow at this place, whose first word has this number, behind those before it.
fn push_seats<'a>(
    seats: &mut Vec<Seat<'a>>,
    place: usize,
    word: u16,
    flow: &'a Flow,
) -> Result<(), AllocError>
    requires few_words { word ≤ max_clusters }
    requires few_clusters { length flow.now.clusters ≤ max_clusters_of_flow }
    ensures { OnOk result (seats.new.items ≡ seats.old.items ++ turns_for place word (requesting flow.now)) }
{
    if !flow.kind().makes_requests() {
        return Ok(());
    }
    for (list, sids) in flow.clusters().iter().enumerate() {
        seats.push(Seat {
            word: word + list as u16,
            place,
            list,
            flow,
            sids,
        })?;
    }
    Ok(())
}

/// The places of clusters in table order, by the ids of their flows and their places there.
fn places_of(alloc: Global, seats: &[Seat]) -> Result<Vec<Option<u16>>, AllocError>
    requires { AreSeats seats.now }
    ensures { IfOk result (λ places. spec.ArePlaces seats.now places.items) }
{
    let mut places = Vec::new(alloc);
    for place in (0..seats.len()).rev() {
        put(&mut places, seats[place].code(), place as u16)?;
    }
    Ok(places)
}

/// The place of this code, if it has one.
pub(crate) fn place_at(places: &[Option<u16>], code: u64) -> Option<u16>
    ensures { result ≡ slice_index_or places.now code None }
{
    let at = code as usize;
    if at < places.len() {
        return places[at];
    }
    None
}

/// Gives a code a place.
pub(crate) fn put(places: &mut Vec<Option<u16>>, code: u32, place: u16) -> Result<(), AllocError>
    ensures { OnOk result ((other : ℕ) → slice_index_or places.new.items other None ≡
        (if code == other then Some place else slice_index_or places.old.items other None)) }
{
    let at = code as usize;
    grow(places, at + 1)?;
    places[at] = Some(place);
    Ok(())
}

/// Makes room for so many codes, which have no places.
fn grow(places: &mut Vec<Option<u16>>, count: usize) -> Result<(), AllocError>
    ensures same { OnOk result ((code : ℕ) →
        slice_index_or places.new.items code None ≡ slice_index_or places.old.items code None) }
    ensures long { OnOk result (count ≤ length places.new.items) }
{
    if places.len() < count {
        places.resize(count, None)?;
    }
    Ok(())
}
