use super::base::{Case, compare};
use std::test::Fail;

/// Two clusters of a flow of two channels, one after the other. The 24 minislots that the first leaves on each channel
/// carry 744 bytes.
pub(super) const BONDED: Case<'static> = Case {
    name: "bonded shares",
    channels: 2,
    flow: "type = 2
channels = [1, 2]
clusters = [[257, 258], [273, 274]]
priority = 0
rate = 0
burst = 3044
unit = 4
headers = true",
    flows: 1,
    two_clusters: false,
    more: "",
    whole: false,
    rounds: 2,
    asks: (8000, 2000),
    asks_next: (0, 0),
    answer: "0: MAP 3 0; MAP 3 0; 1: 1 0+126 4000, 1 126+24 744, 2 0+126 4000, 2 126+24 744, MAP 4 0; MAP 4 0; \
        left 0 None, left 512 None, ",
};

/// A bucket of 1,522 bytes grows by 320 in each round, and stays full in round 1.
const DRAINED: Case<'static> = Case {
    name: "a bucket drains",
    channels: 1,
    flow: "type = 2
channels = [1]
clusters = [[291]]
priority = 0
rate = 1280000
burst = 1522
unit = 4
headers = true",
    rounds: 4,
    asks: (10_000, 0),
    answer: "0: MAP 3 0; 1: 1 0+49 1522, MAP 4 0; 2: 1 0+11 320, MAP 4 0; 3: 1 0+11 320, MAP 4 0; left 7838 Some(0), ",
    ..BONDED
};

/// The first of 40 flows takes all minislots, and of the others only 38 are pending.
const PENDING: Case<'static> = Case {
    name: "pendings",
    channels: 1,
    flow: "type = 2
channels = [1]
clusters = [[291]]
priority = 7
rate = 0
burst = 3044
unit = 4
headers = true",
    flows: 40,
    asks: (262_140, 4),
    answer: "0: MAP 3 0; 1: 1 0+150 4776, MAP 41 38; left 257364 None, left 4 None, left 4 None, left 4 None, .. 40, ",
    ..BONDED
};

/// With 100 assignments a MAP has no room, whatever is idle.
const SMALL: Case<'static> = Case {
    name: "140 clusters of a byte",
    channels: 1,
    flow: "type = 2
channels = [1]
clusters = [[291], [292]]
priority = 0
rate = 0
burst = 3044
unit = 4
headers = true",
    flows: 70,
    two_clusters: true,
    asks: (1, 1),
    answer: "0: MAP 3 0; 1: 1 0+1 1, 1 1+1 1, 1 2+1 1, 1 3+1 1, .. 99, MAP 140 38; \
        left 0 None, left 0 None, left 0 None, left 0 None, .. 140, ",
    ..BONDED
};

/// A flow of priority 7 asks for all, and the other one has 1,522 bytes and then 320 reserved for it. What it gets besides
/// isn't taken of its reserve.
const RESERVED: Case<'static> = Case {
    name: "a reserve",
    channels: 1,
    flow: "type = 2
channels = [1]
clusters = [[291]]
priority = 7
rate = 0
burst = 3044
unit = 4
headers = true",
    more: "[[flow]]
id = 2
type = 2
channels = [1]
clusters = [[292]]
priority = 0
rate = 0
burst = 1522
min_rate = 1280000
unit = 4
headers = true
",
    whole: true,
    rounds: 3,
    asks: (262_140, 10_000),
    answer: "fffc4000 fffc4096 0001c0a0 ; \
        G,1,1,Requested,1,0,0,291,10,0,101,3208 G,1,1,Requested,2,0,0,292,10,101,49,1544 \
        048e8000 04928065 fffc4096 0001c0a0 ; \
        G,2,1,Requested,1,0,0,291,10,0,139,4424 G,2,1,Requested,2,0,0,292,10,139,11,328 \
        048e8000 0492808b fffc4096 0001c0a0 ; left 254508 None, left 8128 None, ",
    ..BONDED
};

/// Both clusters of a flow have bytes of its reserve, which is spent once.
const RESERVED_TWICE: Case<'static> = Case {
    name: "a reserve of two clusters",
    more: "[[flow]]
id = 2
type = 2
channels = [1]
clusters = [[292], [293]]
priority = 0
rate = 0
burst = 1522
min_rate = 1280000
unit = 4
headers = true
",
    whole: false,
    rounds: 4,
    asks: (262_140, 1000),
    answer: "0: MAP 3 0; 1: 1 0+100 3176, 1 100+32 1000, 1 132+18 552, MAP 5 0; 2: 1 0+139 4424, 1 139+11 328, MAP 4 0; \
        3: 1 0+145 4616, 1 145+5 120, MAP 4 0; left 249924 None, left 0 None, left 0 None, ",
    ..RESERVED
};

const CASES: &[Case<'static>] = &[BONDED, DRAINED, PENDING, SMALL, RESERVED, RESERVED_TWICE];

#[test]
fn worked_rounds(rt: HostRuntime) -> Result<(), Fail> {
    Ok(compare(&rt, rt.alloc(), CASES)?)
}
