ghost use Rattle.std.specs.Prelude.{◌≡◌, ◌<◌, IfOk};
ghost use Rattle.us_flows.specs.Clusters.{lookup};
ghost use Rattle.us_requests.specs.Outcomes.{AreKnown};

use std::alloc::{AllocError, Global};
use us_flows::{Config, Found};

/// How many SIDs are kept.
const KEPT: usize = 4_096;

/// The channels on which SIDs of one number are kept apart.
const CHANNELS: usize = 16;

/// A SID on a channel, and what it asks for there.
#[derive(Clone, Copy)]
pub(crate) struct KnownSid {
    channel: u8,
    sid: u16,
    found: Option<Found>,
}

/// Room for what SIDs ask for. Most SIDs of a trace ask many times, so what was found of one is kept.
pub(crate) fn known_sids(alloc: Global, config: &Config) -> Result<Vec<KnownSid>, AllocError>
    ensures { IfOk result (λ known. AreKnown config.now known.items) }
{
    let mut known = Vec::new(alloc);
    known.resize(KEPT, looked_up(config, 0, 0))?;
    Ok(known)
}

/// What a SID asks for on a channel. If it isn't known it is looked up, and kept in the place of another.
pub(crate) fn found_of(
    config: &Config,
    known: &mut Vec<KnownSid>,
    channel: u8,
    sid: u16,
) -> Option<Found>
    requires { AreKnown config.now known.old.items }
    ensures value { result ≡ lookup config.now channel sid }
    ensures known { AreKnown config.now known.new.items }
{
    let place = place_of(channel, sid);
    let kept = known[place];
    if kept.channel == channel && kept.sid == sid {
        return kept.found;
    }
    let fresh = looked_up(config, channel, sid);
    known[place] = fresh;
    fresh.found
}

/// A SID on a channel, looked up.
fn looked_up(config: &Config, channel: u8, sid: u16) -> KnownSid
    ensures value { result.found ≡ lookup config.now channel sid }
    ensures channel { result.channel ≡ channel }
    ensures sid { result.sid ≡ sid }
{
    KnownSid {
        channel,
        sid,
        found: config.lookup(channel, sid),
    }
}

/// Where a SID is kept.
fn place_of(channel: u8, sid: u16) -> usize
    ensures { result < 4096 }
{
    (CHANNELS * usize::from(sid) + usize::from(channel)) % KEPT
}
