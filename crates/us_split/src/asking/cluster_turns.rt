ghost use Rattle.std.specs.Prelude.{◌≡◌, ℕ, ◌<◌, ◌≤◌, None, length, slice_index_or, IfOk};
ghost use Rattle.std.specs.List.{AllByRecursion};
ghost use Rattle.us_flows.specs.Clusters.{turns_of};
ghost use Rattle.us_split.specs.Asking as spec;
ghost use Rattle.us_split.specs.Askers.{IsPlaceOf};

use std::alloc::Global;
use us_flows::Config;
use us_slots::NoMemory;

/// The word of each turn's cluster in a round, by number.
pub(super) fn numbers_of(alloc: Global, config: &Config) -> Result<Vec<u16>, NoMemory>
    ensures { IfOk result (λ numbers. numbers.items ≡ spec.numbers_of (turns_of config.now)) }
{
    let turns = config.turns();
    let mut numbers = Vec::with_capacity(alloc, turns.len())?;
    for turn in turns {
        numbers.push_reserved(turn.cluster as u16);
    }
    Ok(numbers)
}

/// Where the number of each of so many words stands among these numbers.
pub(super) fn places_of(
    alloc: Global,
    numbers: &[u16],
    words: usize,
) -> Result<Vec<Option<u16>>, NoMemory>
    requires few { length numbers.now ≤ 65536 }
    requires below { AllByRecursion (λ n. n < words) numbers.now }
    ensures one_each { IfOk result (λ places. length places.items ≡ words) }
    ensures found { IfOk result (λ places. (n : ℕ) → n < words →
        IsPlaceOf numbers.now n (slice_index_or places.items n None)) }
{
    let mut places = vec![in alloc; None; words]?;
    for (place, number) in numbers.iter().enumerate() {
        places[usize::from(*number)] = Some(place as u16);
    }
    Ok(places)
}
