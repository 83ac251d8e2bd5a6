use super::base::{Asked, NO_FLOWS, big, check};
use std::alloc::AllocError;
use std::test::Fail;
use us_flows::Config;
use us_samples::base;

/// Writes how many words there are, and all that SIDs ask for on some channels: the channel, the SID and the answer.
pub fn tell_sids(out: &mut String, config: &Config) -> Result<(), AllocError> {
    write!(out, "{} words", config.clusters())?;
    for channel in [0, 1, 10, 20, 255] {
        tell_channel(out, config, channel)?;
    }
    Ok(())
}

/// Writes all that SIDs ask for on a channel.
fn tell_channel(out: &mut String, config: &Config, channel: u8) -> Result<(), AllocError> {
    for sid in 0..=16_383 {
        if let Some(found) = config.lookup(channel, sid) {
            write!(out, "; {channel} {sid} {found:?}")?;
        }
    }
    Ok(())
}

/// No SID is found but those of flows, each on its own channel; a station's SID asks for nothing. The second line has
/// one SID on both channels, in one flow and in two, and the least and the greatest SID.
const SIDS: &str = "\
5 words; 10 257 Cluster(0); 10 273 Cluster(1); 10 769 Cluster(3); 10 785 Cluster(4); \
20 258 Cluster(0); 20 274 Cluster(1); 20 513 Cluster(2); 20 1025 Unsolicited | id = 10~ -> id = 10~
4 words; 10 1 Cluster(1); 10 257 Cluster(0); 10 15871 Cluster(3); \
20 1 Unsolicited; 20 257 Cluster(0); 20 513 Cluster(2); 20 15871 Cluster(1) | \
[[257, 258], [273, 274]] -> [[257, 257], [1, 15871]] ; [[1025]] -> [[1]] ; [[769], [785]] -> [[15871]]";

#[test]
fn sids_of_flows(rt: HostRuntime) -> Result<(), Fail> {
    check(rt.alloc(), Asked::Sids, big(), "", SIDS)?;
    check(
        rt.alloc(),
        Asked::Sids,
        base(),
        NO_FLOWS,
        "0 words | id = 1~ -> id = 1~",
    )
}
