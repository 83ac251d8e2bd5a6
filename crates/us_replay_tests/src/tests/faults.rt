use super::base::same;
use std::alloc::Global;
use std::fmt::{self, Write};
use us_replay::RunFault;
use us_requests::TraceFault;

const FAULTS: [RunFault; 6] = [
    RunFault::Rounds,
    RunFault::Workers,
    RunFault::Trace(TraceFault::Header),
    RunFault::WriteMaps(0),
    RunFault::WriteReport(7),
    RunFault::NoMemory(1),
];

const TEXTS: &str = "\
RU1: no rounds, or more than a run has ticks for
RU2: the workers are not 1 to 64
RU3: the trace is refused
RU4: the maps file failed after 0 rounds
RU5: the report failed after 7 rounds
RU6: out of memory after 1 rounds
";

/// The texts of all these faults, one a line.
fn text_of_faults(alloc: Global) -> Result<String, fmt::Error> {
    let mut text = String::new(alloc);
    for fault in &FAULTS {
        writeln!(text, "{fault}")?;
    }
    Ok(text)
}

#[test]
fn texts_of_run_faults(rt: HostRuntime) {
    match text_of_faults(rt.alloc()) {
        Ok(text) => same(&rt, &text.as_str(), &TEXTS, "faults"),
        Err(_) => same(&rt, &"no memory", &"faults", "faults"),
    }
}
