ghost use Rattle.std.specs.Prelude.{◌≡◌};
ghost use Rattle.us_flows.specs.Clusters.{lookup};
ghost use Rattle.us_flows.specs.Lawful.{AreTables};
ghost use Rattle.us_requests.specs.Asks.{round_of_tick};
ghost use Rattle.us_requests.specs.Outcomes.{Becomes, units_of};

use crate::asks::Ask;
use crate::placed::PlacedAsk;
use crate::requests::{Kind, Request};
use us_flows::{Config, Found};

/// What becomes of a request of a trace.
#[derive(Clone, Copy, Debug, PartialEq, Eq)]
pub(crate) enum Outcome {
    /// No flow has that SID on that channel.
    Unknown,
    /// It is a request of a flow that makes none, or a mark of one that tells no activity.
    NotRequestable,
    /// Its round is behind the end of the run.
    Late,
    /// It is this ask.
    Asked(PlacedAsk),
}

/// What becomes of a request in a run of so many rounds, given what was found of its SID and the bytes of a unit of the
/// requests by each word.
#[tactic(auto, using(crate::proofs::AskLemmas::words))]
pub(crate) fn outcome_of(
    config: &Config,
    units: &[u8],
    rounds: u32,
    request: &Request,
    found: Option<Found>,
) -> Outcome
    requires lawful { AreTables config.now }
    requires units { units.now ≡ units_of config.now }
    requires found { found ≡ lookup config.now request.now.channel request.now.sid }
    ensures { Becomes config.now rounds request.now result }
{
    let found = match found {
        Some(found) => found,
        None => return Outcome::Unknown,
    };
    // Marks come last, so that a request costs little more than where there are none.
    let ask = if request.kind == Kind::Request {
        match found {
            Found::Cluster(cluster) => Ask {
                cluster,
                bytes: u32::from(request.units) * u32::from(units[usize::from(cluster)]),
            },
            _ => return Outcome::NotRequestable,
        }
    } else {
        match (found, request.kind) {
            (Found::Activity(silent), Kind::Active) => Ask {
                cluster: silent + 1,
                bytes: 1,
            },
            (Found::Activity(silent), _) => Ask {
                cluster: silent,
                bytes: 1,
            },
            _ => return Outcome::NotRequestable,
        }
    };
    let round = round_of(config, request.tick);
    if round >= u64::from(rounds) {
        return Outcome::Late;
    }
    Outcome::Asked(PlacedAsk {
        round: round as u32,
        ask,
    })
}

/// The round of a request at a tick, whether or not the run is as long.
#[tactic(auto, unfolding(crate::specs::Asks::round_of_tick))]
fn round_of(config: &Config, tick: u32) -> u64
    ensures { result ≡ round_of_tick config.now tick }
{
    (u64::from(tick) + u64::from(config.lead_ticks())).div_ceil(u64::from(config.round_ticks()))
}
