use super::base::{Case, compare_run};

/// Two grants in each round, while the flow is active.
const TALKING: &str = "
[[flow]]
id = 1
type = 5
channels = [1]
clusters = [[513]]
start_us = 0
interval_us = 2000
jitter_us = 1000
grant_bytes = 16
grants_per_interval = 2
";

/// It is silent in round 1, and active again in round 2.
const ROWS: &str = "\
tick,channel,sid,units,kind
0,1,513,0,1
320,1,513,0,2
";

/// The lines of the grants of rounds 0 and 2.
const GRANTS: &str = "\
G,0,1,ad,1,0,0,513,11,0,1,0
G,0,1,ad,1,0,1,513,11,1,1,0
G,2,1,ad,1,2,0,513,11,0,1,0
G,2,1,ad,1,2,1,513,11,1,1,0";

/// That of the poll of round 1.
const POLL: &str = "G,1,1,ad,1,1,0,513,1,0,2,0";

#[test]
fn polls(rt: HostRuntime) {
    let granted = Case {
        name: "each occurrence granted, of which the silent interval has one",
        lines: &[GRANTS, POLL],
        answer: None,
    };
    let missed = Case {
        name: "the poll missed",
        lines: &["M,1,1,ad,1,1,0", GRANTS],
        answer: None,
    };
    let left_out = Case {
        name: "the poll left out",
        lines: &[GRANTS],
        answer: Some((1, 1, 1)),
    };
    let twice = Case {
        name: "the poll granted twice",
        lines: &[GRANTS, POLL, POLL],
        answer: Some((1, 1, 1)),
    };
    compare_run(
        &rt,
        rt.alloc(),
        TALKING,
        ROWS,
        &[granted, missed, left_out, twice],
    );
}

#[test]
fn grants_and_polls(rt: HostRuntime) {
    let second = Case {
        name: "a second grant of the silent interval",
        lines: &[GRANTS, POLL, "G,1,1,ad,1,1,1,513,11,2,1,0"],
        answer: Some((1, 1, 1)),
    };
    let missed = Case {
        name: "one that is missed",
        lines: &[GRANTS, POLL, "M,1,1,ad,1,1,1"],
        answer: Some((1, 1, 1)),
    };
    let grant = Case {
        name: "a grant in the place of the poll",
        lines: &[GRANTS, "G,1,1,ad,1,1,0,513,11,0,1,0"],
        answer: Some((1, 1, 1)),
    };
    let poll = Case {
        name: "a poll in the place of a grant",
        lines: &[
            "G,0,1,ad,1,0,0,513,1,0,2,0",
            "G,0,1,ad,1,0,1,513,11,2,1,0",
            POLL,
        ],
        answer: Some((0, 1, 1)),
    };
    let behind = Case {
        name: "a grant left out behind the silent interval",
        lines: &[
            "G,0,1,ad,1,0,0,513,11,0,1,0",
            "G,0,1,ad,1,0,1,513,11,1,1,0",
            POLL,
            "G,2,1,ad,1,2,0,513,11,0,1,0",
        ],
        answer: Some((2, 1, 1)),
    };
    compare_run(
        &rt,
        rt.alloc(),
        TALKING,
        ROWS,
        &[second, missed, grant, poll, behind],
    );
}

#[test]
fn without_marks(rt: HostRuntime) {
    let polled = Case {
        name: "a poll, though the flow is active at all times",
        lines: &[GRANTS, POLL],
        answer: Some((1, 1, 1)),
    };
    let granted = Case {
        name: "grants in each interval",
        lines: &[
            GRANTS,
            "G,1,1,ad,1,1,0,513,11,0,1,0",
            "G,1,1,ad,1,1,1,513,11,1,1,0",
        ],
        answer: None,
    };
    compare_run(
        &rt,
        rt.alloc(),
        TALKING,
        "tick,channel,sid,units\n",
        &[polled, granted],
    );
}
