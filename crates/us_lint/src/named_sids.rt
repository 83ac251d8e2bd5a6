use crate::alike::{Alike, SidRows};
use crate::warnings::{Subject, Tally};
use std::alloc::{AllocError, Global};
use us_flows::{Config, Flow, Found};
use us_requests::{Kind, Request};

/// Channels, and SIDs of each.
const CHANNELS: usize = 256;

const SIDS: usize = 16_384;

/// How a SID is named: by rows that its flow takes, or by others too.
const TAKEN: u8 = 1;

const REFUSED: u8 = 2;

/// The SIDs that rows of a trace name, each on its channel.
#[derive(Drop)]
pub(crate) struct NamedSids {
    /// How each SID of each channel is named, 0 where it isn't; empty before the first row.
    named: Vec<u8>,
    /// Those that no flow has,
    pub(crate) unknown: Refused,
    /// and those with rows of kinds that their flow doesn't take.
    pub(crate) unused: Refused,
    /// Whether memory was wanting for them.
    pub(crate) lacks_memory: bool,
}

impl NamedSids {
    pub(crate) fn new(alloc: Global) -> NamedSids {
        NamedSids {
            named: Vec::new(alloc),
            unknown: Refused::new(alloc),
            unused: Refused::new(alloc),
            lacks_memory: false,
        }
    }

    /// One more row. Answers whether it asks for something.
    pub(crate) fn add(&mut self, config: &Config, request: &Request, line: usize) -> bool {
        let (channel, sid) = (request.channel, request.sid);
        let found = config.lookup(channel, sid);
        let asks = asks_for(found, request.kind);
        let is_new = self.note(place_of(channel, sid), asks);
        if asks {
            return true;
        }
        let refused = match found {
            Some(_) => &mut self.unused,
            None => &mut self.unknown,
        };
        self.lacks_memory |= refused.add(channel, sid, line, is_new).is_err();
        false
    }

    /// Notes how the SID at a place is named once more. Answers whether no row before was one that isn't taken.
    fn note(&mut self, place: usize, asks: bool) -> bool {
        if self.named.is_empty() & !self.lacks_memory {
            self.lacks_memory |= self.named.resize(CHANNELS * SIDS, 0).is_err();
        }
        let Some(named) = self.named.get_mut(place) else {
            return false;
        };
        let is_new = *named < REFUSED;
        *named = (*named).max(if asks { TAKEN } else { REFUSED });
        is_new
    }

    /// Whether a row names a SID of this flow.
    pub(crate) fn have(&self, flow: &Flow) -> bool {
        for sids in flow.clusters() {
            if self.have_one(flow.channels(), sids) {
                return true;
            }
        }
        false
    }

    /// Whether a row names one of the SIDs of a cluster, each of which is on its channel.
    fn have_one(&self, channels: &[u8], sids: &[u16]) -> bool {
        for (place, channel) in channels.iter().enumerate() {
            if let Some(sid) = sids.get(place) {
                let named = self.named.get(place_of(*channel, *sid));
                if named.copied().unwrap_or(0) > 0 {
                    return true;
                }
            }
        }
        false
    }
}

/// Where a SID of a channel stands among all.
fn place_of(channel: u8, sid: u16) -> usize {
    channel as usize * SIDS + sid as usize
}

/// Whether a row of this kind asks for something of what a SID stands for.
fn asks_for(found: Option<Found>, kind: Kind) -> bool {
    match (found, kind) {
        (Some(Found::Cluster(_)), Kind::Request) => true,
        (Some(Found::Activity(_)), Kind::Silent | Kind::Active) => true,
        _ => false,
    }
}

/// SIDs with rows that aren't taken. Those that aren't told one by one are counted, since a trace may have a million.
#[derive(Drop)]
pub(crate) struct Refused {
    pub(crate) tally: Tally,
    /// Those that are told one by one, in the order of their first such rows.
    pub(crate) told: Vec<SidRows>,
}

impl Refused {
    fn new(alloc: Global) -> Refused {
        Refused {
            tally: Tally::new(),
            told: Vec::new(alloc),
        }
    }

    /// One more row, on this line, of a SID that is new here or not.
    fn add(&mut self, channel: u8, sid: u16, line: usize, is_new: bool) -> Result<(), AllocError> {
        if is_new && self.tally.add(Subject::Row(line)) {
            let rows = Alike::new();
            self.told.push(SidRows { channel, sid, rows })?;
        }
        for told in self.told.iter_mut() {
            if (told.channel == channel) & (told.sid == sid) {
                told.rows.add(line);
            }
        }
        Ok(())
    }
}
