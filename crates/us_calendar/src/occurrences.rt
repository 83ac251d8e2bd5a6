ghost use Rattle.std.specs.Prelude.{◌≡◌, ◌*◌, ◌<◌, ◌==◌, ◌||◌, ◌&&◌, true};
ghost use Rattle.us_slots.specs.Times.{quarters_per_tick};
ghost use Rattle.us_flows.specs.Tables.{max_run_ticks};
ghost use Rattle.us_calendar.specs.Kept.{IsTimed, behind, number_of};

use crate::entries::Entry;

/// An occurrence of an entry, with its ideal time, so that no look at it multiplies.
#[derive(Clone, Copy)]
pub(crate) struct Occurrence {
    /// The number of the interval.
    pub(crate) i: u32,
    /// The place among the grants of the interval, at most 126. It is as wide as its neighbours, so that a copy has no gap.
    pub(crate) k: u32,
    /// When it is ideal, in quarter microseconds.
    pub(crate) ideal: u32,
}

impl Occurrence {
    /// The first one of an entry.
    #[tactic(auto, using(crate::proofs::TimedLemmas::timed_facts))]
    pub(crate) fn first(entry: &Entry) -> Occurrence
        ensures number { number_of entry.now result ≡ 0 }
        ensures timed { IsTimed entry.now result }
    {
        Occurrence {
            i: 0,
            k: 0,
            ideal: entry.start,
        }
    }

    /// The one behind it: the next grant of its interval, or the first one of the next interval. A poll, where the flow is
    /// silent, is the first of its interval and stands for all of it.
    #[tactic(auto, using(crate::proofs::TimedLemmas::timed_facts))]
    pub(crate) fn after(self, entry: &Entry, active: bool) -> Occurrence
        requires timed { IsTimed entry.now self }
        requires begins { (active || (self.k == 0)) ≡ true }
        requires soon { self.ideal < quarters_per_tick * max_run_ticks }
        ensures number { number_of entry.now result ≡ behind entry.now active (number_of entry.now self) }
        ensures timed { IsTimed entry.now result }
        ensures comes { ((active && (result.ideal == self.ideal)) || (result.k == 0)) ≡ true }
    {
        let grants = u32::from(entry.grants);
        if active && self.k + 1 < grants {
            Occurrence {
                i: self.i,
                k: self.k + 1,
                ideal: self.ideal,
            }
        } else {
            Occurrence {
                i: self.i + 1,
                k: 0,
                ideal: self.ideal + entry.interval,
            }
        }
    }
}
