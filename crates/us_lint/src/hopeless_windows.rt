ghost use Rattle.std.specs.Prelude.{◌≡◌, ◌+◌, ◌*◌, ◌<◌, IfSome};
ghost use Rattle.us_lint.specs.Windows.{CanBeGranted};

use crate::empty_maps::EmptyMaps;
use us_calendar::Entry;
use us_slots::{ChannelTime, window};

/// The most windows of an entry that are looked at.
pub(crate) const MAX_WINDOWS: u32 = 10_000;

/// Why no schedule could grant a window.
#[derive(Clone, Copy)]
pub(crate) enum Lack {
    /// No minislot begins in it.
    Minislot,
    /// From none of its minislots on a grant has room beside the reserves.
    Room,
}

/// Windows that no schedule could grant, all for one reason.
#[derive(Clone, Copy)]
pub(crate) struct HopelessWindows {
    /// How many there are.
    pub(crate) count: u32,
    /// Of the first of these the interval, and when it closes, in quarter microseconds.
    pub(crate) first_interval: u32,
    pub(crate) first_end: u32,
}

/// The windows of an entry that close in a run, the first 10,000 at most.
#[derive(Clone, Copy)]
pub(crate) struct ClosedWindows {
    /// How many there are.
    pub(crate) count: u32,
    /// Those that no schedule could grant, by why.
    hopeless: [HopelessWindows; 2],
}

/// Those of an entry, in a run that ends after so many quarter microseconds.
pub(crate) fn closed_windows(
    entry: &Entry,
    time: &ChannelTime,
    maps: &EmptyMaps,
    run_quarters: u32,
) -> ClosedWindows {
    let mut windows = ClosedWindows {
        count: 0,
        hopeless: [NO_WINDOWS; 2],
    };
    for interval in 0..MAX_WINDOWS {
        let Some(start) = start_before(entry, interval, run_quarters) else {
            break;
        };
        windows.count = interval + 1;
        if let Some(lack) = lack_of(entry, time, maps, start) {
            windows.hopeless[lack as usize].add(interval, start + entry.jitter);
        }
    }
    windows
}

/// When an interval begins, if its window closes before this time.
fn start_before(entry: &Entry, interval: u32, end: u32) -> Option<u32>
    ensures value { IfSome result (λ start. start ≡ entry.now.start + interval * entry.now.interval) }
    ensures closes { IfSome result (λ start. start + entry.now.jitter < end) }
{
    let behind = interval.checked_mul(entry.interval)?;
    let start = entry.start.checked_add(behind)?;
    match start.checked_add(entry.jitter) {
        Some(closes) if closes < end => Some(start),
        _ => None,
    }
}

/// Why no schedule could give a grant to the window of an interval that begins then, if none could. A poll of a flow that
/// is silent isn't looked at.
#[tactic(auto, using(crate::proofs::RoomLemmas::never_granted, crate::proofs::RoomLemmas::never_begun))]
fn lack_of(entry: &Entry, time: &ChannelTime, maps: &EmptyMaps, start: u32) -> Option<Lack>
    ensures { IfSome result (λ lack. ¬ CanBeGranted maps.now time.now entry.now.slots start entry.now.jitter) }
{
    let Some((first, last)) = window(time, u64::from(start), u64::from(entry.jitter)) else {
        return Some(Lack::Minislot);
    };
    if maps.have_room(entry.slots_of(true), first, last) {
        return None;
    }
    Some(Lack::Room)
}

/// None yet.
const NO_WINDOWS: HopelessWindows = HopelessWindows {
    count: 0,
    first_interval: 0,
    first_end: 0,
};

impl HopelessWindows {
    /// One more.
    fn add(&mut self, interval: u32, end: u32) {
        if self.count == 0 {
            self.first_interval = interval;
            self.first_end = end;
        }
        self.count = self.count.saturating_add(1);
    }
}

impl ClosedWindows {
    /// Those that no schedule could grant, for this reason.
    pub(crate) fn hopeless(&self, lack: Lack) -> HopelessWindows {
        self.hopeless[lack as usize]
    }

    /// Whether there are none of these.
    pub(crate) fn all_have_hope(&self) -> bool {
        (self.hopeless[0].count == 0) & (self.hopeless[1].count == 0)
    }
}
