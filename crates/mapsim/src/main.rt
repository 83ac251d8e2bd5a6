//! `mapsim`: replays the requests of a trace with a configuration, from files into files or from standard input; checks a
//! maps file and a report that any scheduler made; tells what is wrong in such files, by line; and prints the MAPs of a maps
//! file.
//!
//! `docs/FORMATS.md` has the words, the order, the fault lines and the statuses.
#![tactic(auto)]

// What help says.
mod helps;

// What ends the program early.
mod faults;

// The lines that faults print.
mod fault_lines;

// How the program ends.
mod statuses;

// Bytes to standard output.
mod printing;

// The line between configuration and trace.
mod marks;

// MAPs as text,
mod map_lines;

// and all MAPs of a maps file.
mod dumps;

// The configuration in a file.
mod files;

// Whether a replay would write over its own files.
mod same_files;

// From files into files.
mod replaying;

// From files to a verdict.
mod checking;

// From files to what is wrong in them.
mod linting;

// From a maps file to standard output.
mod dumping;

// From standard input to standard output.
mod piping;

// The program as a function.
mod programs;

use faults::Fault;
use programs::{end_by, run};
use std::env;
use std::io::ErrorKind;
use std::process::ExitCode;
use us_slots::{FromRead, FromWrite};

fn main(rt: HostRuntime) -> ExitCode {
    let status = match process_words(&rt) {
        Ok(words) => run(
            &rt,
            words.as_slice(),
            &mut FromRead::new(rt.stdin()),
            &mut FromWrite::new(rt.stdout()),
            rt.stderr(),
        ),
        Err(fault) => end_by(&fault, rt.stderr()),
    };
    ExitCode::from(status.code())
}

/// The words of the process, its name first. One that isn't UTF-8 is a usage fault.
fn process_words(rt: &HostRuntime) -> Result<Vec<String>, Fault> {
    let alloc = rt.alloc();
    match env::args(rt) {
        Ok(words) => Ok(words.collect(alloc)?),
        Err(error) if error.kind() == ErrorKind::OutOfMemory => Err(Fault::NoMemory),
        Err(_) => Err(Fault::Usage(String::from_str(
            alloc,
            "error: invalid UTF-8 was detected in one or more arguments\n",
        )?)),
    }
}
