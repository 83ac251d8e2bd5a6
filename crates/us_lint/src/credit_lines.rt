use crate::findings::VerdictFile;
use crate::lengths::{channel_with, flow_with};
use crate::lines::{Which, lines_of};
use crate::phrases::{Name, Phrase};
use crate::said::{Said, first_other, place_of};
use crate::told::{Told, told_by};
use us_flows::{Channel, Flow};
use us_output::Row;
use us_reports::Place;
use us_slots::{MAX_BURST_BYTES, grant_cost};

/// The bytes of a segment header (the standard's).
const HEADER_BYTES: u64 = 8;

/// That a line of a request is wrong, or isn't the only one of its cluster.
pub(crate) fn credit_line_said(
    flows: &[Flow],
    channels: &[Channel],
    rows: &[Row],
    at: Place,
) -> Said {
    let which = Which::Request(at, 0, u64::MAX);
    for (place, row) in rows.iter().enumerate() {
        let line = told_by(row);
        if which.has(line) {
            if let Some(wrong) = wrong_with(flows, channels, line) {
                return Said::at(VerdictFile::at(place), place_of(at), wrong);
            }
        }
    }
    let first = lines_of(rows, Which::Request(at, 0, 0));
    let others = lines_of(rows, Which::Request(at, 1, u64::MAX));
    let double = if first.count < 2 { others } else { first };
    Said::count(1, double, place_of(at))
}

/// What is wrong with a grant of a request, by itself.
fn wrong_with(flows: &[Flow], channels: &[Channel], line: Told) -> Option<Phrase> {
    match (
        flow_with(flows, line.id),
        channel_with(channels, line.channel),
    ) {
        (Some(flow), Some(channel)) => wrong_grant(flow, channel, line),
        _ => Some(Phrase::wanted(Name::Flows, 1, 0)),
    }
}

/// What the numbers of such a grant are called, and whether the flow makes requests and is on the channel, in the order in
/// which they are looked at.
static NAMES: [Name; 8] = [
    Name::RequestingFlows,
    Name::I,
    Name::K,
    Name::FlowsOnChannel,
    Name::Sid,
    Name::Credit,
    Name::SlotsOfCredit,
    Name::Iuc,
];

/// The same, of a flow and on a channel.
fn wrong_grant(flow: &Flow, channel: &Channel, line: Told) -> Option<Phrase> {
    let requests = flow.kind().makes_requests() as u64;
    let last = (flow.clusters().len() as u64).saturating_sub(1);
    let (found, sid) = sid_on(flow, line.channel, line.i);
    let header = if flow.headers() { HEADER_BYTES } else { 0 };
    let most = MAX_BURST_BYTES as u64 - header;
    let bytes = line.credit.min(most) + header;
    let (slots, iuc) = grant_cost(&channel.bursts, bytes as u32);
    let (slots, iuc) = (slots as u64, iuc.number() as u64);
    first_other(
        &NAMES,
        &[1, 0, 0, 1, sid, 1, slots, iuc],
        &[1, last, 0, 1, sid, most, slots, iuc],
        &[
            requests,
            line.i,
            line.k,
            found,
            line.sid,
            line.credit,
            line.slots,
            line.iuc,
        ],
    )
}

/// Whether a flow's cluster has a SID on a channel, as 1 or 0, and that.
fn sid_on(flow: &Flow, channel: u64, cluster: u64) -> (u64, u64) {
    let clusters = flow.clusters();
    let sids: &[u16] = clusters.get(cluster as usize).map_or(&[], Vec::as_slice);
    for (place, id) in flow.channels().iter().enumerate() {
        if *id as u64 == channel {
            return match sids.get(place) {
                Some(sid) => (1, *sid as u64),
                None => (0, 0),
            };
        }
    }
    (0, 0)
}
