ghost use Rattle.std.specs.Prelude.{◌≡◌, ◌+◌, ◌*◌, ◌^◌, ◌<◌, ◌≤◌, ◌⊎◌, ◌↔◌, length, map, zip, Err, IfOk};
ghost use Rattle.std.specs.List.{AllByRecursion};
ghost use Rattle.us_flows.specs.Tables.{Tables, max_run_ticks};
ghost use Rattle.us_flows.specs.Clusters.{words_of};
ghost use Rattle.us_holes.specs.Boards.{max_assignments};
ghost use Rattle.us_channel.specs.Channels.{heard};
ghost use Rattle.us_round.specs.Parts.{ArePartsOfRound, state_of};
ghost use Rattle.us_round.specs.Rounds as spec;
ghost use Rattle.us_output.specs.Outputs.{out_of, AreWithinLimits};
ghost use Rattle.us_round.specs.States.{AreSound, CanMake, IsMade, settled_by};

use crate::alone::Alone;
use crate::done::RoundDone;
use crate::faults::RoundFault;
use crate::hands::Hands;
use crate::one_round::OneRound;
use crate::parts::Parts;
use crate::round_mail::RoundMail;
use crate::states::State;
use std::alloc::Global;
use std::sync::Wait;
use std::thread::Threads;
use us_crew::{Gate, MAX_WORKERS, Mailboxes, with_crew};
use us_flows::Config;
use us_output::{ChannelWithText, RoundOut};
use us_slots::NoMemory;

/// Schedules the round of a state with the round's cut: `cuts` has one number for each word, in the order of their numbers.
/// The words of clusters have the bytes that these newly ask for. Those of activity have bytes where the flow is marked as
/// silent or as active, and ask for nothing. The answer has the state that the next round starts from.
///
/// Channels are moved to workers and back twice: in phase `Fill` for reserves and calendars, then, once all boards are
/// planned together, in phase `Build`. The workers are the calling thread and threads that are started for this round,
/// together as many as were asked for, and no more than there are channels. Each enters the gate before each channel.
/// What is answered is the same for every number of workers. RO1 is looked for before all else.
///
/// The outstanding bytes of each word and its cut together have to be below 2^62, and the round has to end at tick 2^26
/// or before. On a fault the state is given up.
pub fn round<H: Threads + Wait + Sync, G: Gate + Sync>(
    threads: &H,
    alloc: Global,
    state: State,
    cuts: &[u64],
    workers: usize,
    gate: &G,
) -> Result<(State, RoundOut), RoundFault>
    requires words { length cuts.now ≡ length (words_of state.tables) }
    requires room { AllByRecursion (λ pair. pair.0 + pair.1 < 2 ^ 62) (zip state.outstanding cuts.now) }
    requires time { (state.round + 1) * state.tables.round_ticks ≤ max_run_ticks }
    ensures workers { (result ≡ Err RoundFault.Workers) ↔ ((workers ≡ 0) ⊎ (64 < workers)) }
    ensures state { IfOk result (λ done. done.0 ≡ (spec.round_of state cuts.now).state) }
    ensures out { IfOk result (λ done. done.1 ≡ out_of state.tables (spec.round_of state cuts.now).scheduled) }

    // The grants credit no cluster more than is outstanding of it, and no flow more than its bucket has; and each starts
    // inside its MAP.
    ensures sound { IfOk result (λ _. let begun : spec.State = spec.begun state cuts.now in
        AreSound begun (spec.builds_of begun)) }

    // No MAP passes its limits, so a channel has at most a line for each assignment that a MAP can have; all other lines
    // are of what the calendars settled.
    ensures limits { IfOk result (λ done.
        AreWithinLimits state.tables (spec.round_of state cuts.now).scheduled) }
    ensures few { IfOk result (λ done. length done.1.rows + settled_by state ≤
        max_assignments * length state.tables.channels + settled_by done.0) }
{
    if workers == 0 || workers > MAX_WORKERS {
        return Err(RoundFault::Workers);
    }
    let helpers = workers.min(state.channels()).saturating_sub(1);
    let done = step_with(threads, alloc, state, cuts, helpers, gate)?;
    let out = done.out(alloc)?;
    Ok((done.into_state(), out))
}

/// The same by so many helpers and the calling thread, which needs no crew where it is alone.
fn step_with<H: Threads + Wait + Sync, G: Gate + Sync>(
    threads: &H,
    alloc: Global,
    state: State,
    cuts: &[u64],
    helpers: usize,
    gate: &G,
) -> Result<RoundDone, NoMemory>
    requires { CanMake state cuts.now }
    ensures { IfOk result (IsMade state cuts.now) }
{
    if helpers == 0 {
        return step(state, cuts, &mut Alone { gate });
    }
    let config = state.core().share_config()?;
    step_by_crew(threads, alloc, &config, state, cuts, helpers, gate)
}

/// The same by a crew. The configuration is the state's.
fn step_by_crew<H: Threads + Wait + Sync, G: Gate + Copy + Sync + Send + Drop>(
    threads: &H,
    alloc: Global,
    config: &Config,
    state: State,
    cuts: &[u64],
    helpers: usize,
    gate: G,
) -> Result<RoundDone, NoMemory>
    requires ready { CanMake state cuts.now }
    requires config { config.now ≡ state.tables }
    ensures { IfOk result (IsMade state cuts.now) }
{
    let fills = Mailboxes::open(alloc, helpers)?;
    let builds = Mailboxes::open(alloc, helpers)?;
    let mail = RoundMail {
        fills: &fills,
        builds: &builds,
    };
    let task = OneRound {
        alloc,
        state,
        cuts,
        config,
        gate,
        mail: &mail,
    };
    with_crew(threads, helpers, &mail, task)
}

/// Schedules the round of a state as `round` does, of which `hands` do the channels. What it gives is told of the answer: as
/// values, or as text.
///
/// On want of memory the state is given up.
pub fn step<H: Hands>(state: State, cuts: &[u64], hands: &mut H) -> Result<RoundDone, NoMemory>
    requires ready { CanMake state cuts.now }
    requires hands { H.knows hands.old state.tables }
    ensures made { IfOk result (IsMade state cuts.now) }
    ensures same { (t : Tables) → H.knows hands.old t → H.knows hands.new t }
{
    let begun = begin(state, cuts);
    let mut filled = begun.fill(hands)?;
    filled.plan()?;
    let built = filled.build(hands)?;
    built.close()
}

/// Begins the round of a state: what the clusters ask for is outstanding too, the buckets grow, and the calendars hear which
/// flows are active from this round on, and which are silent.
fn begin(state: State, cuts: &[u64]) -> Parts
    requires { CanMake state cuts.now }
    ensures value { state_of result.core result.channels.items ≡ spec.begun state cuts.now }
    ensures known { ArePartsOfRound result.core result.channels.items }
{
    let mut parts = state.into_parts();
    parts.core.begin(cuts);
    hear_all(&mut parts.channels, cuts);
    parts
}

/// Has all channels hear a round's cut.
fn hear_all(channels: &mut [ChannelWithText], cuts: &[u64])
    ensures { channels.new ≡ map (heard cuts.now) channels.old }
{
    for channel in channels.iter_mut() {
        channel.hear(cuts);
    }
}
