ghost use Rattle.std.specs.Prelude.{◌≡◌, [], IfErr, IfOk, string_bytes};
ghost use Rattle.us_page.specs.Runs as spec;

use crate::faults::PageFault;
use std::alloc::{AllocError, Global};
use std::marker::Model;
use us_flows::Config;
use us_replay::replay_alone;
use us_slots::{FromRead, FromWrite};

/// What a replay wrote in memory, or the line of the fault by which it was refused.
#[derive(Drop)]
pub struct Run {
    maps: Vec<u8>,
    report: Vec<u8>,
    line: String,
}

impl Model for Run {
    ghost use Rattle.std.specs.Prelude.{string_bytes};
    ghost use Rattle.us_page.specs.Runs as spec;

    ghost Value = { spec.Run };

    ghost view = { λ r. record { maps = r.maps.items; report = r.report.items; line = string_bytes r.line } };
}

impl Run {
    /// Replays the trace that a text tells with the configuration that another tells, for so many rounds. The fault is the
    /// first that `mapsim` would meet; a write that failed in memory is want of it.
    #[tactic(auto, using(crate::proofs::RunLemmas::config_refuses, crate::proofs::RunLemmas::trace_refuses, crate::proofs::RunLemmas::is_given))]
    pub fn of(alloc: Global, config: &[u8], trace: &[u8], rounds: u32) -> Result<Run, PageFault>
        ensures given { IfOk result (spec.IsGiven config.now trace.now rounds) }
        ensures refused { IfErr result (spec.IsRefused config.now trace.now rounds) }
    {
        let config = Config::read(alloc, config)?;
        Run::with(alloc, &config, trace, rounds)
    }

    /// The same with a configuration that was read.
    #[tactic(auto, using(crate::proofs::RunLemmas::gives, crate::proofs::RunLemmas::refuses))]
    fn with(alloc: Global, config: &Config, trace: &[u8], rounds: u32) -> Result<Run, PageFault>
        ensures given { IfOk result (spec.Gives config.now trace.now rounds) }
        ensures refused { IfErr result (spec.RefusesTrace config.now trace.now rounds) }
    {
        let mut maps = FromWrite::new(Vec::new(alloc));
        let mut report = FromWrite::new(Vec::new(alloc));
        replay_alone(
            alloc,
            config,
            &mut FromRead::new(trace),
            rounds,
            &mut maps,
            &mut report,
        )?;
        Ok(Run {
            maps: maps.into_inner(),
            report: report.into_inner(),
            line: String::new(alloc),
        })
    }

    /// What stands where a fault refused the replay: its line alone.
    pub fn refused(alloc: Global, fault: PageFault) -> Result<Run, AllocError>
        ensures { IfOk result (λ run. run ≡ spec.refused_by fault) }
    {
        Ok(Run {
            maps: Vec::new(alloc),
            report: Vec::new(alloc),
            line: format!(in alloc; "{fault}")?,
        })
    }

    /// A run that has a line alone.
    pub(crate) fn of_line(alloc: Global, line: String) -> Run
        ensures { result ≡ record { maps = []; report = []; line = string_bytes line } }
    {
        Run {
            maps: Vec::new(alloc),
            report: Vec::new(alloc),
            line,
        }
    }

    /// The maps file; empty where the replay was refused.
    pub fn maps(&self) -> &[u8]
        ensures { result.now ≡ self.now.maps }
    {
        &self.maps
    }

    /// The report; empty where the replay was refused.
    pub fn report(&self) -> &[u8]
        ensures { result.now ≡ self.now.report }
    {
        &self.report
    }

    /// The line of the fault, without a line feed; empty where there is none.
    pub fn line(&self) -> &[u8]
        ensures { result.now ≡ self.now.line }
    {
        self.line.as_str().as_bytes()
    }
}
