ghost use Rattle.std.specs.Prelude.{◌≡◌, ◌+◌, ◌^◌, ◌<◌, length, zip, IsTrue};
ghost use Rattle.std.specs.List.{AllByRecursion};

use super::base::{same, text_of};
use std::alloc::Global;
use std::process::Abort;
use std::test::Fail;
use us_flows::Config;
use us_slots::NoMemory;
use us_split::Askers;

/// Two clusters of a flow, a flow that tells its activity, and a cluster of a flow that goes before. So the turns are of the
/// clusters of words 4, 0 and 1, and words 2 and 3 ask for nothing.
const FLOWS: &str = "[[flow]]
id = 1
type = 2
channels = [1]
clusters = [[291], [293]]
priority = 0
rate = 0
burst = 3044
unit = 4
headers = true
[[flow]]
id = 2
type = 5
channels = [1]
clusters = [[513]]
start_us = 0
interval_us = 2000
jitter_us = 1000
grant_bytes = 16
grants_per_interval = 2
[[flow]]
id = 3
type = 2
channels = [1]
clusters = [[295]]
priority = 5
rate = 0
burst = 3044
unit = 4
headers = false
";

/// What is done to the askers.
enum Step {
    Ask(usize, u64),
    Cut([u64; 5]),
    Credit(usize, u64),
    Settle,
}

/// Steps, each with what it leaves: the places of those who ask, and of those who were pending, and the bytes of each word
/// that are outstanding, and that are left.
static STEPS: [(Step, &'static str); 18] = [
    (Step::Settle, "[] [] [0, 0, 0, 0, 0] [0, 0, 0, 0, 0]"),
    (
        Step::Cut([0, 0, 1, 2, 0]),
        "[] [] [0, 0, 0, 0, 0] [0, 0, 0, 0, 0]",
    ),
    (Step::Ask(3, 5), "[] [] [0, 0, 0, 0, 0] [0, 0, 0, 0, 0]"),
    (
        Step::Ask(1, 100),
        "[2] [] [0, 100, 0, 0, 0] [0, 100, 0, 0, 0]",
    ),
    (
        Step::Ask(0, 50),
        "[1, 2] [] [50, 100, 0, 0, 0] [50, 100, 0, 0, 0]",
    ),
    (
        Step::Ask(4, 10),
        "[0, 1, 2] [] [50, 100, 0, 0, 10] [50, 100, 0, 0, 10]",
    ),
    (
        Step::Ask(0, 0),
        "[0, 1, 2] [] [50, 100, 0, 0, 10] [50, 100, 0, 0, 10]",
    ),
    (
        Step::Ask(1, 1),
        "[0, 1, 2] [] [50, 101, 0, 0, 10] [50, 101, 0, 0, 10]",
    ),
    (
        Step::Credit(0, 50),
        "[0, 1, 2] [] [50, 101, 0, 0, 10] [0, 101, 0, 0, 10]",
    ),
    (
        Step::Credit(1, 30),
        "[0, 1, 2] [] [50, 101, 0, 0, 10] [0, 71, 0, 0, 10]",
    ),
    (
        Step::Settle,
        "[0, 2] [0] [0, 71, 0, 0, 10] [0, 71, 0, 0, 10]",
    ),
    (
        Step::Settle,
        "[0, 2] [0, 2] [0, 71, 0, 0, 10] [0, 71, 0, 0, 10]",
    ),
    (
        Step::Credit(4, 10),
        "[0, 2] [0, 2] [0, 71, 0, 0, 10] [0, 71, 0, 0, 0]",
    ),
    (
        Step::Ask(0, 0),
        "[0, 2] [0, 2] [0, 71, 0, 0, 10] [0, 71, 0, 0, 0]",
    ),
    (Step::Settle, "[2] [2] [0, 71, 0, 0, 0] [0, 71, 0, 0, 0]"),
    (
        Step::Cut([4, 1, 0, 3, 7]),
        "[0, 1, 2] [2] [4, 72, 0, 0, 7] [4, 72, 0, 0, 7]",
    ),
    (
        Step::Credit(1, 72),
        "[0, 1, 2] [2] [4, 72, 0, 0, 7] [4, 0, 0, 0, 7]",
    ),
    (
        Step::Settle,
        "[0, 1] [0, 1] [4, 0, 0, 0, 7] [4, 0, 0, 0, 7]",
    ),
];

/// Takes a step, where it may be taken.
fn take(askers: &mut Askers, step: &Step) {
    match step {
        Step::Ask(word, bytes) => ask(askers, *word, *bytes),
        Step::Cut(cut) => ask_all(askers, cut),
        Step::Credit(cluster, bytes) => credit(askers, *cluster, *bytes),
        Step::Settle => askers.settle(),
    }
}

fn ask(askers: &mut Askers, word: usize, bytes: u64) {
    let outstanding = askers.outstanding();
    if word < outstanding.len() && bytes < 1000 && outstanding[word] < 1000 {
        askers.add(word, bytes);
    }
}

/// Has the clusters ask for what a cut has, where there is room for all.
pub fn ask_all(askers: &mut Askers, cuts: &[u64])
    ensures { askers.new.tables ≡ askers.old.tables }
{
    if has_room(askers.outstanding(), cuts) {
        askers.add_all(cuts);
    }
}

/// Whether a cut has a number for each word, and there is room for all.
fn has_room(outstanding: &[u64], cuts: &[u64]) -> bool
    ensures words { IsTrue result → length cuts.now ≡ length outstanding.now }
    ensures room { IsTrue result → AllByRecursion (λ pair. pair.0 + pair.1 < 2 ^ 62) (zip outstanding.now cuts.now) }
{
    if cuts.len() != outstanding.len() {
        return false;
    }
    for (word, bytes) in cuts.iter().enumerate() {
        if *bytes >= 1_000_000 || outstanding[word] >= 1_000_000 {
            return false;
        }
    }
    true
}

fn credit(askers: &mut Askers, cluster: usize, bytes: u64) {
    let left = askers.left();
    if cluster < left.len() && bytes <= left[cluster] {
        askers.credit(cluster, bytes);
    }
}

/// Takes all steps, and compares what each leaves.
pub fn walk(rt: &impl Abort, alloc: Global) -> Result<(), NoMemory> {
    let text = text_of(alloc, 1, FLOWS)?;
    match Config::read(alloc, text.as_bytes()) {
        Ok(config) => take_all(rt, alloc, &config),
        Err(_) => Err(NoMemory),
    }
}

fn take_all(rt: &impl Abort, alloc: Global, config: &Config) -> Result<(), NoMemory> {
    let mut askers = Askers::new(alloc, config)?;
    for (step, left) in &STEPS {
        take(&mut askers, step);
        let told = told(alloc, &askers)?;
        same(rt, told.as_str(), left, "who asks");
    }
    Ok(())
}

fn told(alloc: Global, askers: &Askers) -> Result<String, NoMemory> {
    let (asking, pending) = (askers.asking(), askers.pending());
    let (outstanding, left) = (askers.outstanding(), askers.left());
    Ok(format!(in alloc; "{asking:?} {pending:?} {outstanding:?} {left:?}")?)
}

#[test]
fn who_asks_and_who_is_pending(rt: HostRuntime) -> Result<(), Fail> {
    walk(&rt, rt.alloc())?;
    Ok(())
}
