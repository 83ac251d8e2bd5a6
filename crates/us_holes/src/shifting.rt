ghost use Rattle.std.specs.Prelude.{◌≡◌, ◌-◌, ◌<◌, take, length, vec_len, vec_capacity};
ghost use Rattle.std.specs.List.{remove};

/// Moves the entries behind a place one forward: the one that stood there is given up, and the last stands twice.
fn close_up<T: Copy>(list: &mut [T], place: usize)
    requires { place < length list.old }
    ensures { take (length list.old - 1) list.new ≡ remove list.old place }
{
    let mut at = place;
    while at + 1 < list.len() {
        let next = list[at + 1];
        list[at] = next;
        at += 1;
    }
}

/// Takes the entry at a place out, and moves those behind it one forward.
pub(crate) fn take_out<T: Copy>(list: &mut Vec<T>, place: usize)
    requires { place < vec_len list.old }
    ensures items { list.new.items ≡ remove list.old.items place }
    ensures capacity { vec_capacity list.new ≡ vec_capacity list.old }
{
    // mostly few stand behind it: to move them one by one costs less than to have a block of memory moved
    close_up(list.as_mut_slice(), place);
    let _ = list.pop();
}
