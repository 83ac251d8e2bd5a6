ghost use Rattle.std.specs.Prelude.{◌≡◌, ◌+◌, ◌==◌, ◌<◌, ◌≤◌, [], ◌∷◌, ◌++◌, length, filter, slice_index, if◌then◌else◌, vec_len, vec_capacity};
ghost use Rattle.std.specs.List.{AllByRecursion};
ghost use Rattle.std.specs.List.Sorted.{IsNonDecreasing};
ghost use Rattle.us_split.specs.Asking.{asks, is_pending};
ghost use Rattle.us_split.specs.Askers.{IsPartedAt, put_in};

/// Lists the turn at a place among others that rise, if nothing was outstanding of it before. It needs no memory.
pub(super) fn list_turn(list: &mut Vec<u16>, place: u16, before: u64)
    requires rising { IsNonDecreasing list.old.items }
    requires room { before ≡ 0 → vec_len list.old < vec_capacity list.old }
    ensures items { list.new.items ≡ (if before == 0 then put_in place list.old.items else list.old.items) }
    ensures capacity { vec_capacity list.old ≤ vec_capacity list.new }
{
    if before > 0 {
        return;
    }
    let at = first_from(list, place);
    if list.insert(at, place).is_err() {
        unreachable!()
    }
}

/// Where the places that aren't below this one begin.
fn first_from(list: &[u16], place: u16) -> usize
    requires { IsNonDecreasing list.now }
    ensures { IsPartedAt list.now place result }
{
    list.partition_point(|other| *other < place)
}

/// The bytes of the word whose turn stands at a place.
fn bytes_of(bytes: &[u64], numbers: &[u16], place: u16) -> u64
    requires place { place < length numbers.now }
    requires numbers { AllByRecursion (λ n. n < length bytes.now) numbers.now }
    ensures { result ≡ slice_index bytes.now (slice_index numbers.now place) }
{
    bytes[usize::from(numbers[usize::from(place)])]
}

/// Notes those of the turns at these places that are pending, in place of what was noted. It needs no memory.
pub(super) fn note_pending(
    pending: &mut Vec<u16>,
    asking: &[u16],
    numbers: &[u16],
    outstanding: &[u64],
    left: &[u64],
)
    requires places { AllByRecursion (λ place. place < length numbers.now) asking.now }
    requires numbers { AllByRecursion (λ n. n < length outstanding.now) numbers.now }
    requires left { length left.now ≡ length outstanding.now }
    requires room { length asking.now ≤ vec_capacity pending.old }
    ensures items { pending.new.items ≡
        filter (λ place. is_pending outstanding.now left.now (slice_index numbers.now place)) asking.now }
    ensures capacity { vec_capacity pending.new ≡ vec_capacity pending.old }
{
    pending.clear();
    for place in asking {
        let bytes = bytes_of(left, numbers, *place);
        let is_pending = bytes > 0 && bytes == bytes_of(outstanding, numbers, *place);
        note(pending, *place, is_pending);
    }
}

/// Notes a turn if it is one of those that are looked for.
pub(super) fn note(pending: &mut Vec<u16>, place: u16, is_pending: bool)
    requires { vec_len pending.old < vec_capacity pending.old }
    ensures items { pending.new.items ≡ pending.old.items ++ (if is_pending then place ∷ [] else []) }
    ensures len { vec_len pending.new ≤ vec_len pending.old + 1 }
    ensures capacity { vec_capacity pending.new ≡ vec_capacity pending.old }
{
    if is_pending {
        pending.push_reserved(place);
    }
}

/// Drops those of the turns at these places of which nothing is left.
pub(super) fn drop_answered(list: &mut Vec<u16>, numbers: &[u16], left: &[u64])
    requires places { AllByRecursion (λ place. place < length numbers.now) list.old.items }
    requires numbers { AllByRecursion (λ n. n < length left.now) numbers.now }
    ensures items { list.new.items ≡ filter (λ place. asks left.now (slice_index numbers.now place)) list.old.items }
    ensures capacity { vec_capacity list.new ≡ vec_capacity list.old }
{
    let mut kept = 0;
    for at in 0..list.len() {
        let place = list[at];
        if bytes_of(left, numbers, place) > 0 {
            list[kept] = place;
            kept += 1;
        }
    }
    list.truncate(kept);
}
