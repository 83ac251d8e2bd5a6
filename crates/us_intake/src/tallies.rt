ghost use Rattle.std.specs.Prelude.{◌≡◌, ◌+◌, ◌^◌, ◌<◌, ◌≤◌, true, false, sum, length, vec_len};
ghost use Rattle.us_intake.specs.Tallies as spec;
ghost use Rattle.us_slots.specs.Lists.{added};

/// Adds one tally to another that is no shorter, cluster by cluster.
fn add_to(tally: &mut Vec<u64>, other: &Vec<u64>)
    requires row { vec_len other.now ≤ vec_len tally.old }
    requires fits { sum tally.old.items + sum other.now.items < 2 ^ 64 }
    ensures { tally.new.items ≡ added tally.old.items other.now.items }
{
    add_each(tally, other);
}

/// Adds two tallies up to an empty one.
pub(crate) fn add_up(tally: &mut Vec<u64>, one: &Vec<u64>, other: &Vec<u64>)
    requires empty { tally.old.items ≡ spec.empty_tally (vec_len one.now) }
    requires row { vec_len other.now ≡ vec_len one.now }
    requires fits { sum one.now.items + sum other.now.items < 2 ^ 64 }
    ensures { tally.new.items ≡ added one.now.items other.now.items }
{
    add_to(tally, one);
    add_to(tally, other);
}

/// Joins what another seat took to what one did. A seat that doesn't take took nothing, and has no list: since one seat of
/// an intake takes, one of the two lists is empty, but nothing here knows that.
pub(crate) fn join_taken(taken: &mut Vec<u64>, takes: bool, mut other: Vec<u64>)
    requires row { takes ≡ true → vec_len taken.old ≤ vec_len other }
    requires fits { sum other.items + sum taken.old.items < 2 ^ 64 }
    ensures both { takes ≡ true → taken.new.items ≡ added other.items taken.old.items }
    ensures one { takes ≡ false → taken.new.items ≡ taken.old.items }
{
    if takes {
        add_to(&mut other, taken);
        *taken = other;
    }
}

fn add_each(tally: &mut [u64], other: &[u64])
    requires row { length other.now ≤ length tally.old }
    requires fits { sum tally.old + sum other.now < 2 ^ 64 }
    ensures { tally.new ≡ added tally.old other.now }
{
    for at in 0..other.len() {
        tally[at] += other[at];
    }
}
