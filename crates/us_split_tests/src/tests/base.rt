ghost use Rattle.std.specs.Prelude.{◌≡◌, ◌≤◌, length, IsTrue};
ghost use Rattle.us_flows.specs.Clusters.{words_of};
ghost use Rattle.us_split.specs.Plans.{IsIdle};

use std::alloc::{AllocError, Global};
use std::process::Abort;
use us_flows::Config;
use us_samples::put_channel;

/// The one comparison of these tests, since each costs the proof of the function that it stands in.
pub fn same(rt: &impl Abort, found: &str, wanted: &str, place: &str) {
    assert!(rt; found == wanted, "{place}: {found}");
}

/// The text of a configuration of channels 1 to `channels` and these flows.
pub fn text_of(alloc: Global, channels: u8, flows: &str) -> Result<String, AllocError> {
    let mut text = String::new(alloc);
    for id in 0..channels {
        put_channel(&mut text, id + 1)?;
    }
    text.push_str(flows)?;
    Ok(text)
}

/// Whether these are idle minislots of the channels.
fn is_idle(config: &Config, idle: &[u32]) -> bool
    ensures { IsTrue result → IsIdle config.now idle.now }
{
    let channels = config.channels();
    if idle.len() != channels.len() {
        return false;
    }
    for (place, channel) in channels.iter().enumerate() {
        if idle[place] > config.map_len(channel) {
            return false;
        }
    }
    true
}

/// Whether a round of these can be planned: bytes by word, and idle minislots by channel, of no more flows than three.
pub fn fits(config: &Config, outstanding: &[u64], idle: &[u32]) -> bool
    ensures words { IsTrue result → length outstanding.now ≡ length (words_of config.now) }
    ensures flows { IsTrue result → length config.now.flows ≤ 3 }
    ensures idle { IsTrue result → IsIdle config.now idle.now }
{
    outstanding.len() == config.clusters() && config.flows().len() <= 3 && is_idle(config, idle)
}
