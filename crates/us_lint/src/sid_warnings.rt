use crate::alike::SidRows;
use crate::lengths::channel_with;
use crate::named_sids::{NamedSids, Refused};
use crate::names::TableId;
use crate::parts::{Noun, Part, Text};
use crate::sid_owners::owner_of;
use crate::warnings::{Key, Subject, Tally, Warnings};
use us_flows::{Config, SchedulingType, TableName};

/// SIDs that no flow has.
pub(crate) fn push_unknown(warnings: &mut Warnings, config: &Config, unknown: &Refused) {
    for told in &unknown.told {
        add_unknown(warnings, config, told);
    }
    warnings.add_others(&unknown.tally, Noun::UnknownSid);
}

/// That no flow has a SID on a channel.
fn add_unknown(warnings: &mut Warnings, config: &Config, unknown: &SidRows) {
    let subject = Subject::Row(unknown.rows.line);
    let channel = Part::Number(unknown.channel as u64);
    let sid = Part::Number(unknown.sid as u64);
    let rows = unknown.rows.counted();
    if channel_with(config.channels(), unknown.channel as u64).is_none() {
        let words = "channel: no channel has id #, which stands with SID #: #";
        return warnings.add(subject, words, &[channel, sid, rows]);
    }
    match owner_of(config, unknown.sid, None) {
        Some(owner) => {
            let flow = Part::Table(owner.flow);
            let its_channel = Part::Number(owner.channel as u64);
            let words = "sid: no flow has SID # on channel #, # has it on channel #: #";
            warnings.add(subject, words, &[sid, channel, flow, its_channel, rows]);
        }
        None => {
            let words = "sid: no flow has SID # on channel #: #";
            warnings.add(subject, words, &[sid, channel, rows]);
        }
    }
}

/// SIDs of flows that don't take rows of some kind.
pub(crate) fn push_unused(warnings: &mut Warnings, config: &Config, unused: &Refused) {
    for told in &unused.told {
        add_unused(warnings, config, told);
    }
    warnings.add_others(&unused.tally, Noun::UnusedSid);
}

/// That the flow with a SID on a channel doesn't take these rows.
fn add_unused(warnings: &mut Warnings, config: &Config, unused: &SidRows) {
    let Some(owner) = owner_of(config, unused.sid, Some(unused.channel)) else {
        return;
    };
    let (kind, taken) = taken_by(owner.kind);
    warnings.add(
        Subject::Row(unused.rows.line),
        "sid: SID # on channel # is of #, which is of type # and takes #: #",
        &[
            Part::Number(unused.sid as u64),
            Part::Number(owner.channel as u64),
            Part::Table(owner.flow),
            Part::Number(kind),
            Part::Text(taken),
            unused.rows.counted(),
        ],
    );
}

/// The number of a scheduling type in the configuration, and which rows a flow of it takes.
fn taken_by(kind: SchedulingType) -> (u64, Text) {
    match kind {
        SchedulingType::BestEffort => (2, Text::Requests),
        SchedulingType::NonRealTimePolling => (3, Text::Requests),
        SchedulingType::RealTimePolling => (4, Text::Requests),
        SchedulingType::ActivityDetection => (5, Text::Marks),
        SchedulingType::UnsolicitedGrant => (6, Text::NoRows),
    }
}

/// Flows that make requests, and that no row names.
pub(crate) fn push_silent_flows(warnings: &mut Warnings, config: &Config, named: &NamedSids) {
    let mut tally = Tally::new();
    for (index, flow) in config.flows().iter().enumerate() {
        let table = TableId::new(TableName::Flow, index, flow.id());
        let subject = Subject::Key(table.place, Key::Id);
        let is_silent = flow.kind().makes_requests() && !named.have(flow);
        if is_silent && tally.add(subject) {
            let words = "#: no row of the trace names one of its SIDs, so it asks for nothing";
            warnings.add(subject, words, &[Part::Table(table)]);
        }
    }
    warnings.add_others(&tally, Noun::SilentFlow);
}
