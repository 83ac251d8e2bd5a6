ghost use Rattle.std.specs.Prelude.{◌≡◌, ◌<◌, ◌≤◌, length, IfOk};
ghost use Rattle.us_slots.specs.Bursts as bursts_spec;
ghost use Rattle.us_split.specs.KnownCosts.{AreCosts};
ghost use Rattle.us_split.specs.Plans.{max_burst_bytes};

use std::alloc::Global;
use us_slots::{BurstSet, Iuc, NoMemory, grant_cost};

/// How many costs a channel keeps, in 24 KB: of so many sizes of bursts that follow one another each has a place of its
/// own.
const KEPT: usize = 2_048;

/// What a data grant of so many bytes costs.
#[derive(Clone, Copy)]
pub(crate) struct KnownCost {
    pub bytes: u32,
    pub slots: u32,
    pub iuc: Iuc,
}

/// Places for the costs of a channel's bursts. What no bytes cost stands at each of them first.
pub(crate) fn first_costs(alloc: Global, bursts: &BurstSet) -> Result<Vec<KnownCost>, NoMemory>
    ensures { IfOk result (λ costs. AreCosts bursts.now costs.items) }
{
    let (slots, iuc) = grant_cost(bursts, 0);
    let first = KnownCost {
        bytes: 0,
        slots,
        iuc,
    };
    Ok(vec![in alloc; first; KEPT]?)
}

/// The minislots and the IUC of a data grant of so many bytes. They are reckoned unless they stand at their place, and
/// stand there from then on.
pub(crate) fn cost_of(costs: &mut Vec<KnownCost>, bursts: &BurstSet, bytes: u32) -> (u32, Iuc)
    requires bytes { bytes ≤ max_burst_bytes }
    requires known { AreCosts bursts.now costs.old.items }
    ensures value { result ≡ bursts_spec.grant_cost bursts.now bytes }
    ensures known { AreCosts bursts.now costs.new.items }
{
    let place = bytes as usize % KEPT;
    let known = costs[place];
    if known.bytes == bytes {
        (known.slots, known.iuc)
    } else {
        note_cost(costs, place, bursts, bytes)
    }
}

/// Reckons what a data grant of so many bytes costs, and notes it at a place. That is seldom, so its code stands apart.
#[cold]
#[inline(never)]
fn note_cost(costs: &mut Vec<KnownCost>, place: usize, bursts: &BurstSet, bytes: u32) -> (u32, Iuc)
    requires place { place < length costs.old.items }
    requires bytes { bytes ≤ max_burst_bytes }
    requires known { AreCosts bursts.now costs.old.items }
    ensures value { result ≡ bursts_spec.grant_cost bursts.now bytes }
    ensures known { AreCosts bursts.now costs.new.items }
{
    let (slots, iuc) = grant_cost(bursts, bytes);
    costs[place] = KnownCost { bytes, slots, iuc };
    (slots, iuc)
}
