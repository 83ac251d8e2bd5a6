ghost use Rattle.std.specs.Prelude.{◌≡◌, ◌*◌, ◌^◌, ◌<◌, Contains, IfOk};
ghost use Rattle.us_flows.specs.Lawful.{AreTables};
ghost use Rattle.us_lawful.specs.Runs.{Run, run_in};
ghost use Rattle.us_lawful.specs.CalendarLines as lawful;
ghost use Rattle.us_map_rules.specs.Naming.{IsJudged};

use crate::listed::ChannelEntry;
use std::alloc::Global;
use std::marker::Model;
use us_activity::Activities;
use us_flows::{Channel, Config};
use us_requests::Trace;
use us_slots::{NoMemory, QUARTERS_PER_TICK};

/// The run that is judged: its tables, its trace, and who is active in which of its rounds.
pub(crate) struct JudgedRun<'a> {
    config: &'a Config,
    trace: &'a Trace,
    activities: Activities,
    /// The quarter microseconds of a round,
    round_quarters: u64,
    /// and of the run.
    end: u64,
}

/// Gives it up. It is written out so that it is one step wherever it ends.
impl Drop for JudgedRun<'_> {
    fn drop(self) {
        let JudgedRun {
            config: _,
            trace: _,
            activities: _,
            round_quarters: _,
            end: _,
        } = self;
    }
}

impl<'a> Model for JudgedRun<'a> {
    ghost Value = { Run };

    ghost view = { λ r. run_in r.config.now r.trace.now };

    ghost invariant = { λ r. IsJudged r.config.now r.trace.now r.activities r.round_quarters r.end };
}

impl<'a> JudgedRun<'a> {
    /// The run of a configuration and a trace.
    pub(crate) fn of(
        alloc: Global,
        config: &'a Config,
        trace: &'a Trace,
    ) -> Result<JudgedRun<'a>, NoMemory>
        ensures { IfOk result (λ r. r ≡ run_in config.now trace.now) }
    {
        let activities = Activities::of(alloc, config, trace)?;
        let round_quarters = QUARTERS_PER_TICK * u64::from(config.round_ticks());
        Ok(JudgedRun {
            config,
            trace,
            activities,
            round_quarters,
            end: u64::from(trace.rounds()) * round_quarters,
        })
    }

    /// The channels of the table.
    pub(crate) fn channels(&self) -> &[Channel]
        ensures { result.now ≡ self.now.tables.channels }
    {
        self.config.channels()
    }

    /// The quarter microseconds of a round.
    pub(crate) fn round_quarters(&self) -> u64
        ensures value { result ≡ lawful.round_quarters self.now.tables }
        ensures lawful { AreTables self.now.tables }
    {
        self.round_quarters
    }

    /// When the run ends, in quarter microseconds.
    pub(crate) fn end(&self) -> u64
        ensures value { result ≡ self.now.rounds * lawful.round_quarters self.now.tables }
        ensures few { result < 2 ^ 49 }
    {
        self.end
    }

    /// Whether the flow of an entry is active in the round that holds a time, in quarter microseconds.
    pub(crate) fn speaks_in(&self, of: &ChannelEntry, time: u128) -> bool
        requires { Contains (lawful.channel_entries self.now.tables) of.now }
        ensures { result ≡ lawful.speaks_in self.now of.now.entry time }
    {
        match of.entry.silence {
            None => true,
            Some(silence) => {
                let round = time / u128::from(self.round_quarters());
                self.activities.is_active(silence.word, round)
            }
        }
    }
}
