ghost use Rattle.std.specs.Prelude.{◌*◌, ◌≤◌};

use crate::runs::Run;
use us_calendar::Entry;

/// The most assignments of a MAP.
pub(crate) const MAX_ASSIGNMENTS: u64 = 100;

/// Thousandths of an assignment.
const PER_ASSIGNMENT: u64 = 1_000;

/// The most bytes of a line of the report that is a calendar's, with its line feed, such as
/// `G,67108863,255,station,65535,4194303,126,16383,11,4095,4096,0`.
const MAX_LINE_BYTES: u64 = 62;

/// What the calendar of a channel asks for in a run.
#[derive(Clone, Copy)]
pub(crate) struct Load {
    /// How many assignments a round has on average, in thousandths.
    thousandths: u64,
    /// How many lines of the report they take at most.
    pub(crate) lines: u64,
}

impl Load {
    /// That of these entries. One whose first interval begins behind the run asks for nothing.
    pub(crate) fn of(entries: &[Entry], run: &Run) -> Load {
        let mut load = Load {
            thousandths: 0,
            lines: 0,
        };
        for entry in entries {
            if entry.start < run.quarters() {
                load.add(entry, run);
            }
        }
        load
    }

    /// One entry more.
    fn add(&mut self, entry: &Entry, run: &Run)
        requires { entry.now.start ≤ 25 * (run.now.rounds * run.now.round_ticks) }
    {
        let grants = u64::from(entry.grants);
        let asked = PER_ASSIGNMENT * grants * u64::from(run.round_quarters())
            / u64::from(entry.interval);
        self.thousandths = self.thousandths.saturating_add(asked);
        let intervals = (run.quarters() - entry.start).div_ceil(entry.interval);
        self.lines = self.lines.saturating_add(grants * u64::from(intervals));
    }

    /// How many assignments a round has on average, rounded down.
    pub(crate) fn assignments(&self) -> u64 {
        self.thousandths / PER_ASSIGNMENT
    }

    /// Whether these are more than a MAP has.
    pub(crate) fn is_too_much(&self) -> bool {
        self.thousandths > MAX_ASSIGNMENTS * PER_ASSIGNMENT
    }

    /// How many bytes these lines are at most.
    pub(crate) fn bytes(&self) -> u64 {
        self.lines.saturating_mul(MAX_LINE_BYTES)
    }
}
