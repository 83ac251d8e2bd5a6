use crate::faults::Fault;
use std::alloc::Global;
use std::rt::Files;
use us_files::{Stream, read_at_most};
use us_flows::{Config, ConfigFault, MAX_CONFIG_BYTES};

/// The configuration in the file at a path.
pub fn read_config<R: Files>(rt: &R, alloc: Global, path: &str) -> Result<Config, Fault> {
    match read_at_most(rt, alloc, path, Stream::Config, MAX_CONFIG_BYTES)? {
        Some(text) => Ok(Config::read(alloc, &text)?),
        None => Err(Fault::Config(ConfigFault::Text)),
    }
}
