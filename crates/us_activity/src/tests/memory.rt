use super::base::{FLOWS, answer_of, same};
use std::test::Fail;

/// Run by `tools/refuse-memory` too, where each allocation is refused in turn, of the words, of marks that grow, and of their
/// order among them: who is active is answered whole or as want of memory.
#[test]
fn refused_memory(rt: HostRuntime) -> Result<(), Fail> {
    if let Some(answer) = answer_of(rt.alloc(), FLOWS, ROWS) {
        same(
            &rt,
            "memory",
            answer.as_str(),
            "700: asasassss\n702: aasaaaaaa\n",
        );
    }
    Ok(())
}

const ROWS: &str = "tick,channel,sid,units,kind
0,1,700,0,1
320,1,700,0,2
640,1,700,0,1
960,1,700,0,2
1280,1,700,0,1
1280,1,702,0,2
320,1,702,0,1
640,1,702,0,2
";
