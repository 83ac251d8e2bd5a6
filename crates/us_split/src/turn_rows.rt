ghost use Rattle.std.specs.Prelude.{◌≡◌, ℕ, List, Some, ◌==◌, ◌<◌, ◌≤◌, nat_lt, length, position, replicate, slice_get, IfOk, IfSome};
ghost use Rattle.us_flows.specs.Clusters;
ghost use Rattle.us_flows.specs.Clusters.{turns_of};
ghost use Rattle.us_flows.specs.Lawful.{AreTables};
ghost use Rattle.us_flows.specs.Ranges.{max_channels, max_channels_of_flow};
ghost use Rattle.us_flows.specs.Tables.{header_bytes, segment_header_bytes};
ghost use Rattle.us_split.specs.Claims as claims_spec;
ghost use Rattle.us_split.specs.PartialPlans as plans_spec;
ghost use Rattle.us_split.specs.PartialPlans.{IsSmall, IsTurnOf};
ghost use Rattle.us_split.specs.TurnRows as spec;

use crate::channel_plans::{Asker, sid_at};
use crate::claims::Claimant;
use crate::divisions::MAX_CHANNELS_OF_FLOW;
use crate::shares::Shares;
use std::alloc::Global;
use std::marker::Model;
use us_flows::{Channel, Config, Flow, Turn};
use us_slots::NoMemory;

/// The bytes of a segment header (the standard's).
const HEADER_BYTES: u8 = 8;

/// Where a cluster has a SID: the place of the channel in the table, and the SID there.
#[derive(Clone, Copy)]
pub(crate) struct Seat {
    pub place: u8,
    pub sid: u16,
}

/// A turn with what its plan needs of the tables: who asks, whether its flow has a minimum rate, and a seat for each channel
/// of its flow. It has no memory of its own.
#[derive(Drop)]
pub(crate) struct TurnRow {
    asker: Asker,
    has_min_rate: bool,
    count: u8,
    seats: [Seat; MAX_CHANNELS_OF_FLOW],
}

impl Model for TurnRow {
    ghost use Rattle.std.specs.Prelude.{◌≤◌, take};
    ghost use Rattle.us_flows.specs.Lawful.{AreTables};
    ghost use Rattle.us_flows.specs.Ranges.{max_channels_of_flow};
    ghost use Rattle.us_split.specs.TurnRows as spec;

    ghost Value = { spec.TurnRow };

    ghost view = { λ r. record { asker = r.asker; has_min_rate = r.has_min_rate; seats = take r.count r.seats } };

    ghost invariant = { λ r. r.count ≤ max_channels_of_flow };
}

impl TurnRow {
    /// The row of a turn that has this place among all turns.
    fn new(config: &Config, place: u16, turn: &Turn, flow: &Flow) -> TurnRow
        requires small { IsSmall turn.now }
        requires few { length flow.now.channels ≤ max_channels_of_flow }
        ensures { (own : Clusters.Turn) → IsTurnOf turn.now flow.now own →
            result ≡ spec.row_of config.now.channels place own }
    {
        let ids = flow.channels();
        let mut seats = [Seat { place: 0, sid: 0 }; MAX_CHANNELS_OF_FLOW];
        let sids = sids_of(flow, turn.list);
        find_seats(config.channels(), ids, sids, &mut seats[..ids.len()]);
        TurnRow {
            asker: asker_of(place, turn, flow),
            has_min_rate: has_min_rate(flow),
            count: ids.len() as u8,
            seats,
        }
    }

    /// Who asks.
    pub(crate) fn asker(&self) -> Asker
        ensures { result ≡ self.now.asker }
    {
        self.asker
    }

    /// The number of its cluster's word.
    pub(crate) fn cluster(&self) -> usize
        ensures { result ≡ self.now.asker.claimant.cluster }
    {
        let claimant = self.asker.claimant;
        usize::from(claimant.cluster)
    }

    /// The place of its flow.
    pub(crate) fn flow(&self) -> usize
        ensures { result ≡ self.now.asker.claimant.place }
    {
        let claimant = self.asker.claimant;
        usize::from(claimant.place)
    }

    /// Whether its flow has a minimum rate.
    pub(crate) fn has_min_rate(&self) -> bool
        ensures { result ≡ self.now.has_min_rate }
    {
        self.has_min_rate
    }

    /// The bytes of its segment header.
    pub(crate) fn header(&self) -> u32
        ensures { result ≡ self.now.asker.header }
    {
        u32::from(self.asker.header)
    }

    /// No bytes, for each of its seats.
    pub(crate) fn no_shares(&self) -> Shares
        ensures { result ≡ replicate (length self.now.seats) 0 }
    {
        Shares::none(self.seats().len())
    }

    /// Its seats, in the order of the flow's channels.
    pub(crate) fn seats(&self) -> &[Seat]
        ensures value { result.now ≡ self.now.seats }
        ensures few { length self.now.seats ≤ max_channels_of_flow }
    {
        &self.seats[..usize::from(self.count)]
    }
}

/// Who claims in a turn of this flow.
fn asker_of(place: u16, turn: &Turn, flow: &Flow) -> Asker
    requires { IsSmall turn.now }
    ensures { let claimant : claims_spec.Claimant = record {
      cluster = turn.now.cluster;
      place = turn.now.flow;
      flow = flow.now.id;
      list = turn.now.list;
    } in
        let asker : plans_spec.Asker = record { claimant = claimant; turn = place; header = header_bytes flow.now } in
        result ≡ asker }
{
    let claimant = Claimant {
        cluster: turn.cluster as u16,
        place: turn.flow as u16,
        flow: flow.id(),
        list: turn.list as u8,
    };
    Asker {
        claimant,
        turn: place,
        header: header_of(flow),
    }
}

/// The SIDs of the cluster at this place of a flow's list.
fn sids_of(flow: &Flow, list: usize) -> &[u16]
    ensures { (sids : List ℕ) → slice_get flow.now.clusters list ≡ Some sids → result.now ≡ sids }
{
    match flow.clusters().get(list) {
        Some(sids) => sids,
        None => &[],
    }
}

/// The bytes of a flow's segment header, 0 where it has none.
fn header_of(flow: &Flow) -> u8
    ensures value { result ≡ header_bytes flow.now }
    ensures few { result ≤ segment_header_bytes }
{
    if flow.headers() { HEADER_BYTES } else { 0 }
}

/// Whether a flow has a minimum rate.
fn has_min_rate(flow: &Flow) -> bool
    ensures { result ≡ nat_lt 0 flow.now.min_rate }
{
    flow.min_rate() > 0
}

/// Where the channel with this id stands in the table.
fn searched(channels: &[Channel], id: u8) -> Option<usize>
    ensures value { result ≡ position (λ c. c.id == id) channels.now }
    ensures inside { IfSome result (λ place. place < length channels.now) }
{
    channels.iter().position(|channel| channel.id == id)
}

/// The same, and 0 where there is no such channel.
#[tactic(auto, unfolding(crate::specs::TurnRows::place_of))]
fn place_of(channels: &[Channel], id: u8) -> u8
    requires { length channels.now ≤ max_channels }
    ensures { result ≡ spec.place_of channels.now id }
{
    match searched(channels, id) {
        Some(place) => place as u8,
        None => 0,
    }
}

/// Writes the seats on the channels with these ids.
fn find_seats(channels: &[Channel], ids: &[u8], sids: &[u16], seats: &mut [Seat])
    requires few { length channels.now ≤ max_channels }
    requires same_length { length seats.old ≡ length ids.now }
    ensures { seats.new ≡ spec.seats_from channels.now 0 ids.now sids.now }
{
    for i in 0..ids.len() {
        seats[i] = Seat {
            place: place_of(channels, ids[i]),
            sid: sid_at(sids, i),
        };
    }
}

/// The rows of all turns of a round, in order.
pub(crate) fn rows_of(alloc: Global, config: &Config) -> Result<Vec<TurnRow>, NoMemory>
    ensures rows { IfOk result (λ rows. rows.items ≡ spec.rows_from config.now.channels 0 (turns_of config.now)) }
    ensures lawful { AreTables config.now }
{
    let turns = config.turns();
    let mut rows = Vec::with_capacity(alloc, turns.len())?;
    for (place, turn) in turns.iter().enumerate() {
        let flow = &config.flows()[turn.flow];
        rows.push(TurnRow::new(config, place as u16, turn, flow))?;
    }
    Ok(rows)
}
