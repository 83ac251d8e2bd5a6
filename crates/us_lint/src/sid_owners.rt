use crate::names::TableId;
use us_flows::{Config, Flow, SchedulingType, TableName};

/// A flow that has a SID, and the channel on which it has it.
#[derive(Clone, Copy)]
pub(crate) struct SidOwner {
    pub(crate) flow: TableId,
    pub(crate) kind: SchedulingType,
    pub(crate) channel: u8,
}

/// The first flow that has a SID on this channel, or on any where none is named.
pub(crate) fn owner_of(config: &Config, sid: u16, channel: Option<u8>) -> Option<SidOwner> {
    for (index, flow) in config.flows().iter().enumerate() {
        if let Some(channel) = channel_of(flow, sid, channel) {
            return Some(SidOwner {
                flow: TableId::new(TableName::Flow, index, flow.id()),
                kind: flow.kind(),
                channel,
            });
        }
    }
    None
}

/// The channel on which a flow has a SID: this one, or any where none is named.
fn channel_of(flow: &Flow, sid: u16, channel: Option<u8>) -> Option<u8> {
    for sids in flow.clusters() {
        let found = channel_in(flow.channels(), sids, sid, channel);
        if found.is_some() {
            return found;
        }
    }
    None
}

/// The same of one cluster, whose SIDs are each on its channel.
fn channel_in(channels: &[u8], sids: &[u16], sid: u16, channel: Option<u8>) -> Option<u8> {
    for (place, its_channel) in channels.iter().enumerate() {
        let is_there = channel.unwrap_or(*its_channel) == *its_channel;
        if is_there & (sids.get(place) == Some(&sid)) {
            return Some(*its_channel);
        }
    }
    None
}
