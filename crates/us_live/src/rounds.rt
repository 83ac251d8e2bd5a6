ghost use Rattle.std.specs.Prelude.{◌≡◌, ◌+◌, ◌*◌, ◌^◌, ◌<◌, ◌≤◌, ◌⊎◌, ℕ, true, List, length, map, sum, slice_index, IfOk, OnOk, OnErr};
ghost use Rattle.us_flows.specs.Tables.{max_run_ticks};
ghost use Rattle.us_flows.specs.Clusters.{words_of};
ghost use Rattle.us_live.specs.Lives.{IsCut};
ghost use Rattle.us_live.specs.Insides.{IsMade};

use std::alloc::Global;
use std::sync::Wait;
use std::thread::Threads;
use us_crew::Gate;
use us_intake::{Intake, Seat};
use us_round::{RoundOut, State, round};
use us_slots::NoMemory;

/// Cuts the intake, makes the round of what was found, and puts the cut behind the log. After want of memory the log
/// has the same cuts, and the state is given up.
pub(crate) fn make_round<H: Threads + Wait + Sync, G: Gate + Sync>(
    threads: &H,
    alloc: Global,
    state: State,
    log: &mut Vec<Vec<u64>>,
    clusters: usize,
    intake: &Intake,
    seat: &mut Seat,
    workers: usize,
    gate: &G,
) -> Result<(State, RoundOut), NoMemory>
    requires clusters { (clusters ≡ length (words_of state.tables)) × (intake.now.clusters ≡ clusters) }
    requires seat { (seat.old.intake ≡ intake.now) × (seat.old.takes ≡ true) }
    requires took { (cluster : ℕ) →
        slice_index state.outstanding cluster ≤ slice_index seat.old.taken cluster }
    requires time { (state.round + 1) * state.tables.round_ticks ≤ max_run_ticks }
    requires workers { (1 ≤ workers) × (workers ≤ 64) }
    ensures made { IfOk result (λ done. (cut : List ℕ) × IsCut seat.old seat.new cut
        × IsMade state done.0 (map (λ entry. entry.items) log.old.items)
        (map (λ entry. entry.items) log.new.items) cut done.1) }
    ensures same { OnErr result (log.new.items ≡ log.old.items) }
    ensures cut { OnErr result ((seat.new ≡ seat.old) ⊎ ((cut : List ℕ) × IsCut seat.old seat.new cut)) }
{
    // Room for the entry comes before the cut, so that no cut that was scheduled goes unlogged.
    log.reserve(1)?;
    let cut = cut_intake(alloc, clusters, intake, seat)?;
    let Ok((state, out)) = round(threads, alloc, state, &cut, workers, gate) else {
        // The number of workers was looked at before.
        return Err(NoMemory);
    };
    log.push_reserved(cut);
    Ok((state, out))
}

/// Cuts the intake. After want of memory it isn't cut.
fn cut_intake(
    alloc: Global,
    clusters: usize,
    intake: &Intake,
    seat: &mut Seat,
) -> Result<Vec<u64>, NoMemory>
    requires clusters { intake.now.clusters ≡ clusters }
    requires own { seat.old.intake ≡ intake.now }
    requires takes { seat.old.takes ≡ true }
    ensures cut { IfOk result (λ cut. IsCut seat.old seat.new cut.items) }
    ensures within { OnOk result (sum seat.new.taken < 2 ^ 62) }
    ensures same { OnErr result (seat.new ≡ seat.old) }
{
    let mut cut = vec![in alloc; 0u64; clusters]?;
    intake.cut(seat, cut.as_mut_slice());
    // Its clause says how far any quota is from wrapping.
    let _ = intake.quota();
    Ok(cut)
}
