use crate::faults::Fault;
use std::alloc::{AllocError, Global};
use std::rt::Files;
use us_command_line::FileReplay;
use us_files::is_same_file;

/// Refuses a replay that would write over one of its own files: where `--maps` or `--report` names the same file as
/// another option. Nothing is opened.
pub fn refuse_same_files<R: Files>(
    rt: &R,
    alloc: Global,
    order: &FileReplay<'_>,
) -> Result<(), Fault> {
    let config = ("config", order.config);
    let trace = ("trace", order.trace);
    let maps = ("maps", order.maps);
    let report = ("report", order.report);
    let pairs = [
        (maps, config),
        (maps, trace),
        (report, config),
        (report, trace),
        (report, maps),
    ];
    for ((written, path), (other, other_path)) in pairs {
        if is_same_file(rt, path, other_path) {
            return Err(Fault::Usage(refusal(alloc, written, other)?));
        }
    }
    Ok(())
}

/// The usage fault of two options, in clap's form.
fn refusal(alloc: Global, written: &str, other: &str) -> Result<String, AllocError> {
    format!(in alloc;
        "error: the argument '--{written} <F>' cannot name the same file as '--{other} <F>'\n\n\
         For more information, try '--help'.\n"
    )
}
