use super::base::{Case, compare};
use super::rounds::BONDED;
use std::test::Fail;

/// An unsolicited grant splits what is idle on channel 2: cluster 0 has the longer part there.
pub(super) const SPLIT: Case<'static> = Case {
    name: "an unsolicited grant between",
    more: "[[flow]]
id = 2
type = 6
channels = [2]
clusters = [[513]]
start_us = 2875
interval_us = 10000
jitter_us = 0
grant_bytes = 16
grants_per_interval = 1
",
    whole: true,
    answer: "fffc4000 fffc4096 0001c0a0 ; fffc4000 fffc4096 0001c0a0 ; \
        G,1,1,Requested,1,0,0,257,10,0,127,4014 G,1,1,Requested,1,1,0,273,10,127,23,712 \
        G,1,2,Requested,1,1,0,274,10,0,23,712 G,1,2,Unsolicited,2,0,0,513,11,70,1,0 .. 5 \
        G,1,2,Requested,1,1,0,274,10,0,23,712 G,1,2,Unsolicited,2,0,0,513,11,70,1,0 \
        G,1,2,Requested,1,0,0,258,10,71,79,2504 04068000 0446807f fffc4096 0001c0a0 ; \
        044a8000 fffc4017 0806c046 040a8047 fffc4096 0001c0a0 ; left 1482 None, left 576 None, ",
    ..BONDED
};

/// A real-time poll and a station have the first minislots of their kinds.
const POLLED: Case<'static> = Case {
    name: "a poll and a station",
    channels: 1,
    flow: "type = 4
channels = [1]
clusters = [[291]]
priority = 0
rate = 0
burst = 3044
unit = 4
headers = true
start_us = 0
interval_us = 10000
jitter_us = 500",
    more: "[[station]]
id = 1
channel = 1
sid = 5
start_us = 0
interval_us = 10000
jitter_us = 500
",
    rounds: 1,
    answer: "G,0,1,RealTimePoll,1,0,0,291,1,0,2,0 G,0,1,Station,1,0,0,5,4,2,4,0 \
        048c4000 00150002 fffc4006 fffc4096 0001c0a0 ; left 0 None, ",
    ..SPLIT
};

/// Of 101 grants the contention leaves room to 99 assignments.
const HUNDRED: Case<'static> = Case {
    name: "101 grants of a minislot",
    channels: 1,
    flow: "type = 6
channels = [1]
clusters = [[513]]
start_us = 0
interval_us = 10000
jitter_us = 1900
grant_bytes = 16
grants_per_interval = 101",
    more: "",
    rounds: 1,
    answer: "G,0,1,Unsolicited,1,0,0,513,11,0,1,0 G,0,1,Unsolicited,1,0,1,513,11,1,1,0 \
        G,0,1,Unsolicited,1,0,2,513,11,2,1,0 G,0,1,Unsolicited,1,0,3,513,11,3,1,0 .. 101 \
        G,0,1,Unsolicited,1,0,98,513,11,98,1,0 M,0,1,Unsolicited,1,0,99 M,0,1,Unsolicited,1,0,100 \
        0806c000 0806c001 0806c002 0806c003 0806c004 0806c005 ; ",
    ..SPLIT
};

const CASES: &[Case<'static>] = &[SPLIT, POLLED, HUNDRED];

#[test]
fn rounds_with_calendars(rt: HostRuntime) -> Result<(), Fail> {
    Ok(compare(&rt, rt.alloc(), CASES)?)
}
