ghost use Rattle.std.specs.Prelude.{◌≡◌, ◌+◌, ◌≤◌, ◌++◌};
ghost use Rattle.arrayvec.specs.ArrayVec.{array_vec_len};
ghost use Rattle.us_crew.specs.Cutting.{equal_parts, halved_parts};

use crate::MAX_WORKERS;
use arrayvec::ArrayVec;

/// How many items each part has, in the order of the parts.
pub(crate) type Parts = ArrayVec<usize, MAX_WORKERS>;

/// Halves workers and items: half of the workers have half of the items, and so on, down to one worker or one item.
pub(crate) fn by_halves(workers: usize, items: usize) -> Parts
    requires { (1 ≤ workers) × (workers ≤ 64) }
    ensures { result.items ≡ halved_parts workers items }
{
    let mut parts = ArrayVec::new();
    add_halves(&mut parts, workers, items);
    parts
}

/// Adds the parts of some of the workers.
fn add_halves(parts: &mut Parts, workers: usize, items: usize)
    requires some { 1 ≤ workers }
    requires room { array_vec_len parts.old + workers ≤ 64 }
    ensures added { parts.new.items ≡ parts.old.items ++ halved_parts workers items }
    ensures few { array_vec_len parts.new ≤ array_vec_len parts.old + workers }
{
    if workers < 2 || items < 2 {
        return parts.push(items);
    }
    add_halves(parts, workers / 2, items / 2);
    add_halves(parts, workers - workers / 2, items - items / 2);
}

/// Cuts items into so many parts as equal as can be.
pub(crate) fn in_equal_parts(parts: usize, items: usize) -> Parts
    requires { parts ≤ 64 }
    ensures { result.items ≡ equal_parts parts items }
{
    let mut all = ArrayVec::new();
    add_equal_parts(&mut all, parts, items);
    all
}

/// Adds so many of them.
fn add_equal_parts(all: &mut Parts, parts: usize, items: usize)
    requires { array_vec_len all.old + parts ≤ 64 }
    ensures { all.new.items ≡ all.old.items ++ equal_parts parts items }
{
    if parts == 0 {
        return;
    }
    let length = items / parts;
    all.push(length);
    add_equal_parts(all, parts - 1, items - length);
}
