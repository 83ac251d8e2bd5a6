ghost use Rattle.std.specs.Prelude.{◌≡◌, ◌++◌, map, IfOk, OnOk};
ghost use Rattle.us_flows.specs.Clusters.{words_in};
ghost use Rattle.us_activity.specs.Kept as spec;

use std::alloc::{AllocError, Global};
use us_flows::{Config, Flow};

/// Which words mark a flow as silent, by their numbers.
pub(crate) fn silent_words(alloc: Global, config: &Config) -> Result<Vec<bool>, AllocError>
    ensures { IfOk result (λ silent. silent.items ≡ spec.silent_words config.now) }
{
    let mut silent = Vec::new(alloc);
    for flow in config.flows() {
        push_flow(&mut silent, flow)?;
    }
    Ok(silent)
}

/// Puts the words of a flow behind those before them: of those that tell its activity the first one marks it as silent.
fn push_flow(silent: &mut Vec<bool>, flow: &Flow) -> Result<(), AllocError>
    ensures { OnOk result (silent.new.items ≡ silent.old.items ++ map spec.is_silent (words_in flow.now)) }
{
    let tells = flow.kind().tells_activity();
    for place in 0..flow.words() {
        silent.push(tells && place == 0)?;
    }
    Ok(())
}
