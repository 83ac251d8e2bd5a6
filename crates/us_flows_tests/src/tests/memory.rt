use super::base::big;
use std::alloc::Global;
use std::test::Fail;
use us_flows::{Config, ConfigFault};

/// Run by `tools/refuse-memory` too, where each allocation is refused in turn, of lists, maps and turns among them. A
/// refused one is answered as want of memory, and never as another fault or other tables.
#[test]
fn refused_memory(rt: HostRuntime) -> Result<(), Fail> {
    match Config::read(rt.alloc(), big().as_bytes()) {
        Ok(config) => {
            assert_eq!(rt; copied_flows(rt.alloc(), &config), 4);
            assert_eq!(rt; config.flows().len(), 4);
        }
        Err(fault) => assert_eq!(rt; fault, ConfigFault::NoMemory),
    }
    Ok(())
}

/// How many flows a copy has. A copy that is refused leaves all flows where they were.
fn copied_flows(alloc: Global, config: &Config) -> usize {
    match config.copy(alloc) {
        Ok(copy) => copy.flows().len(),
        Err(_) => config.flows().len(),
    }
}
