ghost use Rattle.std.specs.Prelude.{◌≡◌, ◌≤◌, length};
ghost use Rattle.us_flows.specs.Clusters.{words_of};
ghost use Rattle.us_split.specs.Plans.{IsIdle};

use super::asking::ask_all;
use super::base::{fits, same, text_of};
use std::alloc::{AllocError, Global};
use std::process::Abort;
use std::test::Fail;
use us_flows::Config;
use us_slots::NoMemory;
use us_split::{Askers, Claim, Plan, Planner, plan};

/// Rounds of one configuration, one after the other.
pub struct Run<'a> {
    /// The ids go from 1 to this.
    pub channels: u8,
    pub flows: &'a str,
    pub rounds: &'a [Round<'a>],
}

/// A round to plan.
pub struct Round<'a> {
    pub name: &'a str,
    pub outstanding: &'a [u64],
    /// Of up to three flows.
    pub allowances: [Option<u64>; 3],
    pub reserves: [u64; 3],
    pub idle: &'a [u32],
    /// What is left of reserves; and the claims, each as channel, turn, SID, share, minislots and IUC, with channels by their
    /// places.
    pub answer: &'a str,
}

/// The first is planned in one pass a round, and the last in two.
pub static RUNS: [Run<'static>; 6] = [
    // A flow with two clusters on two channels, and segment headers.
    Run {
        channels: 2,
        flows: "[[flow]]
id = 1
type = 2
channels = [1, 2]
clusters = [[291, 292], [293, 294]]
priority = 0
rate = 0
burst = 3044
unit = 4
headers = true
",
        rounds: &[
            Round {
                name: "no room at all",
                outstanding: &[8000, 2000],
                allowances: [None, None, None],
                reserves: [0, 0, 0],
                idle: &[0, 0],
                answer: "left [0, 0, 0]",
            },
            Round {
                name: "one cluster after the other",
                outstanding: &[8000, 2000],
                allowances: [None, None, None],
                reserves: [0, 0, 0],
                idle: &[150, 150],
                answer: "\
                    left [0, 0, 0] [0, 0, 291, 4000, 126, 10] [0, 1, 293, 744, 24, 10] [1, 0, 292, 4000, 126, 10] \
                    [1, 1, 294, 744, 24, 10]",
            },
            Round {
                name: "clusters of one flow share its allowance",
                outstanding: &[1000, 1000],
                allowances: [Some(1500), None, None],
                reserves: [0, 0, 0],
                idle: &[150, 150],
                answer: "\
                    left [0, 0, 0] [0, 0, 291, 500, 17, 10] [0, 1, 293, 250, 9, 9] [1, 0, 292, 500, 17, 10] \
                    [1, 1, 294, 250, 9, 9]",
            },
            Round {
                name: "an allowance is spent in mid-turn",
                outstanding: &[1000, 1000],
                allowances: [Some(701), None, None],
                reserves: [0, 0, 0],
                idle: &[150, 150],
                answer: "left [0, 0, 0] [0, 0, 291, 351, 12, 10] [1, 0, 292, 350, 12, 10]",
            },
            Round {
                name: "no room on a channel",
                outstanding: &[1000, 0],
                allowances: [None, None, None],
                reserves: [0, 0, 0],
                idle: &[0, 150],
                answer: "left [0, 0, 0] [1, 0, 292, 1000, 32, 10]",
            },
        ],
    },
    // A flow that tells its activity, of which nothing is planned, between two others.
    Run {
        channels: 1,
        flows: "[[flow]]
id = 1
type = 2
channels = [1]
clusters = [[291]]
priority = 0
rate = 0
burst = 3044
unit = 4
headers = true
[[flow]]
id = 2
type = 5
channels = [1]
clusters = [[513]]
start_us = 0
interval_us = 2000
jitter_us = 1000
grant_bytes = 16
grants_per_interval = 2
[[flow]]
id = 3
type = 2
channels = [1]
clusters = [[292]]
priority = 5
rate = 0
burst = 3044
unit = 4
headers = false
",
        rounds: &[Round {
            name: "by priority, one of them without headers",
            outstanding: &[5000, 1, 1, 4016],
            allowances: [None, None, Some(1_000_000)],
            reserves: [0, 700, 0],
            idle: &[150],
            answer: "left [0, 700, 0] [0, 0, 292, 4016, 126, 10] [0, 1, 291, 744, 24, 10]",
        }],
    },
    // A flow of eight channels, which names them from the last one on.
    Run {
        channels: 8,
        flows: "[[flow]]
id = 1
type = 2
channels = [8, 7, 6, 5, 4, 3, 2, 1]
clusters = [[291, 291, 291, 291, 291, 291, 291, 291]]
priority = 0
rate = 0
burst = 3044
unit = 4
headers = true
",
        rounds: &[Round {
            name: "three bytes more than eight parts",
            outstanding: &[1003],
            allowances: [None, None, None],
            reserves: [0, 0, 0],
            idle: &[150, 150, 150, 150, 150, 150, 150, 150],
            answer: "\
                left [0, 0, 0] [0, 0, 291, 125, 5, 9] [1, 0, 291, 125, 5, 9] [2, 0, 291, 125, 5, 9] \
                [3, 0, 291, 125, 5, 9] [4, 0, 291, 125, 5, 9] [5, 0, 291, 126, 5, 9] [6, 0, 291, 126, 5, 9] \
                [7, 0, 291, 126, 5, 9]",
        }],
    },
    // A flow that goes first and asks for all the room, and one that goes last and has a minimum rate.
    Run {
        channels: 1,
        flows: "[[flow]]
id = 1
type = 2
channels = [1]
clusters = [[291]]
priority = 7
rate = 0
burst = 3044
unit = 4
headers = true
[[flow]]
id = 2
type = 2
channels = [1]
clusters = [[292]]
priority = 0
rate = 0
burst = 1522
min_rate = 1280000
unit = 4
headers = true
",
        rounds: &[
            Round {
                name: "all of a reserve",
                outstanding: &[262_140, 10_000],
                allowances: [None, None, None],
                reserves: [0, 1522, 0],
                idle: &[150],
                answer: "left [0, 0, 0] [0, 0, 291, 3208, 101, 10] [0, 1, 292, 1544, 49, 10]",
            },
            Round {
                name: "nothing reserved",
                outstanding: &[262_140, 10_000],
                allowances: [None, None, None],
                reserves: [0, 0, 0],
                idle: &[150],
                answer: "left [0, 0, 0] [0, 0, 291, 4776, 150, 10]",
            },
            Round {
                name: "a reserve above what is outstanding",
                outstanding: &[262_140, 10],
                allowances: [None, None, None],
                reserves: [0, 1522, 0],
                idle: &[150],
                answer: "left [0, 1512, 0] [0, 0, 291, 4712, 148, 10] [0, 1, 292, 10, 2, 9]",
            },
            Round {
                name: "a reserve above the allowance",
                outstanding: &[262_140, 10_000],
                allowances: [None, Some(500), None],
                reserves: [0, 1522, 0],
                idle: &[150],
                answer: "left [0, 1022, 0] [0, 0, 291, 4232, 133, 10] [0, 1, 292, 500, 17, 10]",
            },
        ],
    },
    // The same two flows without a minimum rate: the first pass is of none, whatever is reserved.
    Run {
        channels: 1,
        flows: "[[flow]]
id = 1
type = 2
channels = [1]
clusters = [[291]]
priority = 7
rate = 0
burst = 3044
unit = 4
headers = true
[[flow]]
id = 2
type = 2
channels = [1]
clusters = [[292]]
priority = 0
rate = 0
burst = 1522
unit = 4
headers = true
",
        rounds: &[
            Round {
                name: "a reserve without a minimum rate",
                outstanding: &[262_140, 10_000],
                allowances: [None, None, None],
                reserves: [0, 1522, 0],
                idle: &[150],
                answer: "left [0, 1522, 0] [0, 0, 291, 4776, 150, 10]",
            },
            Round {
                name: "reserves without minimum rates",
                outstanding: &[262_140, 10_000],
                allowances: [None, None, None],
                reserves: [700, 1522, 0],
                idle: &[150],
                answer: "left [700, 1522, 0] [0, 0, 291, 4776, 150, 10]",
            },
            Round {
                name: "the other flow alone",
                outstanding: &[0, 10_000],
                allowances: [None, None, None],
                reserves: [0, 1522, 0],
                idle: &[150],
                answer: "left [0, 1522, 0] [0, 1, 292, 4776, 150, 10]",
            },
        ],
    },
    // Three flows with minimum rates, one of them without headers.
    Run {
        channels: 2,
        flows: "[[flow]]
id = 1
type = 2
channels = [1, 2]
clusters = [[291, 292], [293, 294]]
priority = 5
rate = 0
burst = 3044
min_rate = 1280000
unit = 4
headers = true
[[flow]]
id = 2
type = 2
channels = [2]
clusters = [[295]]
priority = 5
rate = 0
burst = 3044
min_rate = 1280000
unit = 4
headers = false
[[flow]]
id = 3
type = 2
channels = [1, 2]
clusters = [[296, 297]]
priority = 7
rate = 0
burst = 3044
min_rate = 1280000
unit = 4
headers = true
",
        rounds: &[Round {
            name: "a channel with less room",
            outstanding: &[3000, 500, 4000, 99_999],
            allowances: [None, Some(2500), None],
            reserves: [700, 3000, 100],
            idle: &[60, 150],
            answer: "\
                left [0, 500, 0] [0, 0, 296, 1672, 53, 10] [0, 1, 291, 200, 7, 9] [1, 0, 297, 1704, 54, 10] \
                [1, 1, 292, 520, 17, 10] [1, 3, 295, 2500, 79, 10]",
        }],
    },
];

/// Each round by `plan`, and by a planner that is kept for all rounds of its run; answers whether both had memory in each.
/// A fault of the configuration, which no run has, is answered as want of memory too.
pub fn are_planned(rt: &impl Abort, alloc: Global, run: &Run<'_>) -> Result<bool, NoMemory> {
    let text = text_of(alloc, run.channels, run.flows)?;
    match Config::read(alloc, text.as_bytes()) {
        Ok(config) => plan_rounds(rt, alloc, &config, run.rounds),
        Err(_) => Err(NoMemory),
    }
}

fn plan_rounds(
    rt: &impl Abort,
    alloc: Global,
    config: &Config,
    rounds: &[Round<'_>],
) -> Result<bool, NoMemory> {
    let mut planner = Planner::new(alloc, config)?;
    let mut all = true;
    for round in rounds {
        assert!(rt; fits(config, round.outstanding, round.idle));
        all &= is_answer(rt, planned_anew(alloc, config, round), round);
        all &= is_answer(rt, planned(alloc, &mut planner, config, round), round);
    }
    Ok(all)
}

/// Whether there was memory for an answer, which is compared then.
fn is_answer(rt: &impl Abort, found: Result<String, NoMemory>, round: &Round<'_>) -> bool {
    match found {
        Ok(told) => {
            same(rt, told.as_str(), round.answer, round.name);
            true
        }
        Err(_) => false,
    }
}

/// A round by `plan`. Each share is looked up too.
fn planned_anew(alloc: Global, config: &Config, round: &Round<'_>) -> Result<String, NoMemory>
    requires words { length round.now.outstanding.now ≡ length (words_of config.now) }
    requires flows { length config.now.flows ≤ 3 }
    requires idle { IsIdle config.now round.now.idle.now }
{
    let allowances = &round.allowances[..config.flows().len()];
    let plan = plan(
        alloc,
        config,
        round.outstanding,
        allowances,
        listed(&round.reserves),
        round.idle,
    )?;
    let taken = [plan.reserved(0), plan.reserved(1), plan.reserved(2)];
    let left = less(round.reserves, taken);
    let mut text = format!(in alloc; "left {left:?}")?;
    for channel in 0..8u32 {
        put_claims(
            &mut text,
            channel,
            plan.claims(channel as usize),
            Some(&plan),
        )?;
    }
    Ok(text)
}

/// The reserves up to the last above 0: what isn't listed is 0.
fn listed(reserves: &[u64; 3]) -> &[u64] {
    match reserves {
        [0, 0, 0] => &[],
        [_, _, 0] => &reserves[..2],
        _ => reserves,
    }
}

/// What is left of reserves of which so much is taken.
fn less(reserves: [u64; 3], taken: [u64; 3]) -> [u64; 3] {
    [
        reserves[0].saturating_sub(taken[0]),
        reserves[1].saturating_sub(taken[1]),
        reserves[2].saturating_sub(taken[2]),
    ]
}

/// The same by a planner, which may have planned other rounds before.
fn planned(
    alloc: Global,
    planner: &mut Planner,
    config: &Config,
    round: &Round<'_>,
) -> Result<String, NoMemory>
    requires tables { planner.old.tables ≡ config.now }
    requires words { length round.now.outstanding.now ≡ length (words_of config.now) }
    requires flows { length config.now.flows ≤ 3 }
    requires idle { IsIdle config.now round.now.idle.now }
    ensures { planner.new.tables ≡ planner.old.tables }
{
    let mut allowances = round.allowances;
    let mut left = round.reserves;
    let allowed = &mut allowances[..config.flows().len()];
    let mut askers = Askers::new(alloc, config)?;
    ask_all(&mut askers, round.outstanding);
    planner.plan(
        askers.asking(),
        askers.outstanding(),
        allowed,
        &mut left,
        round.idle,
    )?;
    let mut text = format!(in alloc; "left {left:?}")?;
    for channel in 0..8u32 {
        put_claims(&mut text, channel, planner.claims(channel as usize), None)?;
    }
    Ok(text)
}

/// The claims on a channel; with a plan their shares are looked up there.
fn put_claims(
    text: &mut String,
    channel: u32,
    claims: &[Claim],
    plan: Option<&Plan>,
) -> Result<(), AllocError> {
    for claim in claims {
        let (turn, position) = (usize::from(claim.turn), usize::from(claim.position));
        let share = match plan {
            Some(plan) => plan.share(turn, position),
            None => claim.share,
        };
        let told = [
            channel,
            u32::from(claim.turn),
            u32::from(claim.sid),
            share,
            claim.slots,
            u32::from(claim.iuc.number()),
        ];
        write!(text, " {told:?}")?;
    }
    Ok(())
}

#[test]
fn plans_of_rounds(rt: HostRuntime) -> Result<(), Fail> {
    for run in &RUNS {
        assert!(rt; are_planned(&rt, rt.alloc(), run)?, "no memory");
    }
    Ok(())
}
