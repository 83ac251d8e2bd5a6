ghost use Rattle.std.specs.Prelude.{◌≡◌, ◌+◌, ◌*◌, ◌^◌, ◌<◌, ◌≤◌, ℕ, length, slice_index, option_map, IfErr, IfOk};
ghost use Rattle.std.specs.List.{AllByRecursion};
ghost use Rattle.us_flows.specs.Tables.{max_run_ticks};
ghost use Rattle.us_flows.specs.Clusters.{words_of};
ghost use Rattle.us_requests.specs.Cuts as requests;
ghost use Rattle.us_steps.specs.Plays.{Plays};

use crate::Step;
use crate::tallies::tallied;
use std::alloc::Global;
use us_requests::Ask;
use us_round::{RoundFault, RoundOut, State, round_alone};

/// Makes the round of a state by these steps, from these words, in the order of their numbers. The
/// answer has the state that the next round starts from, what is left in the words, and what the round gives.
///
/// None: the steps aren't complete, and the state is given up. They are complete when none names a row, a word or a
/// channel that isn't there; each row is added once, at any point; each word is taken once; and each channel is opened
/// once after the last word is taken, and later built once.
///
/// What is outstanding of each word, what it has and the bytes of its rows together have to be below 2^62, and the round
/// has to end at tick 2^26 or before. The fault is want of memory, and the state is given up then.
pub fn play(
    alloc: Global,
    state: State,
    words: &[u64],
    rows: &[Ask],
    steps: &[Step],
) -> Result<Option<(State, Vec<u64>, RoundOut)>, RoundFault>
    requires words { length words.now ≡ length (words_of state.tables) }
    requires rows { AllByRecursion (λ ask. ask.cluster < length words.now) rows.now }
    requires room { (q : ℕ) → q < length words.now →
        slice_index state.outstanding q + (slice_index words.now q + requests.asked rows.now q) < 2 ^ 62 }
    requires time { (state.round + 1) * state.tables.round_ticks ≤ max_run_ticks }
    ensures played { IfOk result (λ found. Plays state words.now rows.now steps.now
        (option_map (λ done. record { state = done.0; words = done.1.items; out = done.2 }) found)) }
    ensures fault { IfErr result (λ given. given ≡ RoundFault.NoMemory) }
{
    let Some((cut, left)) = tallied(alloc, words, rows, state.channels(), steps)? else {
        return Ok(None);
    };
    let (state, out) = round_alone(alloc, state, &cut)?;
    Ok(Some((state, left, out)))
}
