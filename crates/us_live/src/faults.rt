use std::fmt;
use thiserror::Error;
use us_slots::NoMemory;

/// Why a `Live` was not opened, or made no round. Of several the first in this order is told.
#[derive(Clone, Copy, Debug, PartialEq, Eq, Error)]
pub enum LiveFault {
    /// LV1: no rounds, or together over 67,108,864 ticks.
    Rounds,
    /// LV2: the configuration has no word, since no flow makes requests or tells its activity.
    NoCluster,
    /// LV3: the quota is 0, or 2^62 or more.
    Quota,
    /// LV4: memory was wanting in an earlier round.
    Failed,
    /// LV5: all rounds were answered.
    Done,
    /// LV6: no worker, or over 64.
    Workers,
    /// LV7: want of memory. Of a round, it is the last one.
    NoMemory,
}

/// Writes the text of a fault.
impl fmt::Display for LiveFault {
    ghost use Rattle.std.specs.Prelude.{Some};
    ghost use Rattle.us_live.specs.Faults.{fault_text};

    ghost output = { λ fault. Some (fault_text fault) };

    fn fmt<W: fmt::Write>(&self, f: &mut fmt::Formatter<W>) -> fmt::Result {
        f.write_str(match self {
            LiveFault::Rounds => "LV1: no rounds, or more than a run has ticks for",
            LiveFault::NoCluster => "LV2: no flow makes requests or tells its activity",
            LiveFault::Quota => "LV3: the quota is none that can be given",
            LiveFault::Failed => "LV4: an earlier round was out of memory",
            LiveFault::Done => "LV5: all rounds were answered",
            LiveFault::Workers => "LV6: the workers are not 1 to 64",
            LiveFault::NoMemory => "LV7: out of memory",
        })
    }
}

impl From<NoMemory> for LiveFault {
    ghost use Rattle.std.specs.Prelude.{◌≡◌};
    ghost use Rattle.us_live.specs.declared.faults.LiveFault.TheVariants as fault;

    ghost from_gives = { λ _ given. given ≡ fault.NoMemory };

    fn from(_refused: NoMemory) -> LiveFault {
        LiveFault::NoMemory
    }
}
