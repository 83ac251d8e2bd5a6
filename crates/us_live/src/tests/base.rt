ghost use Rattle.std.specs.Prelude.{◌≡◌, ◌≤◌, IfOk};
ghost use Rattle.us_live.specs.Lives.{Feeds};

use crate::{Live, LiveFault};
use std::alloc::{AllocError, Global};
use std::fmt::Debug;
use std::process::Abort;
use us_flows::Config;
use us_intake::{Intake, Seat};
use us_samples::put_channel;

/// The one comparison of these tests.
pub(super) fn same<T: PartialEq + Debug + Drop>(rt: &impl Abort, found: T, wanted: T) {
    assert_eq!(rt; found, wanted);
}

/// A flow of two clusters that is bonded over two channels, and one that has an unsolicited grant on the second.
pub(super) const BONDED: &str =
    "[[flow]]\nid = 1\ntype = 2\nchannels = [1, 2]\nclusters = [[257, 258], [273, 274]]\npriority = 0\n\
    rate = 0\nburst = 3044\nunit = 4\nheaders = true\n\
    [[flow]]\nid = 2\ntype = 6\nchannels = [2]\nclusters = [[513]]\nstart_us = 2875\n\
    interval_us = 10000\njitter_us = 0\ngrant_bytes = 16\ngrants_per_interval = 1\n";

/// A flow that makes no requests, but tells its activity.
pub(super) const CALL: &str =
    "[[flow]]\nid = 1\ntype = 5\nchannels = [1]\nclusters = [[513]]\nstart_us = 0\n\
    interval_us = 2000\njitter_us = 1000\ngrant_bytes = 64\ngrants_per_interval = 1\n";

/// A configuration of so many channels with these flows.
fn text_of(alloc: Global, channels: u8, flows: &str) -> Result<String, AllocError> {
    let mut text = String::new(alloc);
    for id in 1..=channels {
        put_channel(&mut text, id)?;
    }
    text.push_str(flows)?;
    Ok(text)
}

fn config_of(alloc: Global, channels: u8, flows: &str) -> Option<Config> {
    let text = text_of(alloc, channels, flows).ok()?;
    Config::read(alloc, text.as_bytes()).ok()
}

/// The greatest quota.
const QUOTA: u64 = (1 << 62) - 1;

/// A scheduler of these, with the greatest quota.
fn open_one(
    alloc: Global,
    channels: u8,
    flows: &str,
    rounds: u32,
) -> Result<(Live, Intake, Seat), LiveFault>
    ensures feeds { IfOk result (λ opened. Feeds opened.0 opened.1 opened.2) }
    ensures both { IfOk result (λ opened. 2 ≤ opened.1.clusters) }
{
    match config_of(alloc, channels, flows) {
        Some(config) if config.clusters() >= 2 => Live::open(alloc, config, rounds, QUOTA),
        _ => Err(LiveFault::NoMemory),
    }
}

/// A scheduler of these, which have two words or more, with the seat for its rounds and one that was split off.
pub(super) fn open(
    alloc: Global,
    channels: u8,
    flows: &str,
    rounds: u32,
) -> Result<(Live, Intake, Seat, Seat), LiveFault>
    ensures feeds { IfOk result (λ opened. Feeds opened.0 opened.1 opened.2) }
    ensures own { IfOk result (λ opened. opened.3.intake ≡ opened.1) }
    ensures both { IfOk result (λ opened. 2 ≤ opened.1.clusters) }
{
    let (live, intake, seat) = open_one(alloc, channels, flows, rounds)?;
    match intake.split(alloc, seat, 10_000) {
        Ok((first, second)) => Ok((live, intake, first, second)),
        Err(_) => Err(LiveFault::Quota),
    }
}
