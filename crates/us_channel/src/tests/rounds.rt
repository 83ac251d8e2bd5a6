use super::base::{answer_of, same};
use std::alloc::AllocError;

/// The call has minislot 70. Of the first claim, of 1,000 bytes, all is granted before it. Of the second, of 5,000, as much
/// is granted as the 79 minislots behind it carry.
pub(super) const ANSWER: &str = "149 idle; 0 32 1000; 71 79 2512; 1 settled";

/// A claim that fits, and one of which a part fits. The same in a round behind one that granted much, since nothing of that
/// is left.
#[test]
fn with_memory_to_spare(rt: HostRuntime) -> Result<(), AllocError> {
    let fresh = answer_of(rt.alloc(), [0, 0], [1_000, 5_000])?;
    same(&rt, "a fresh channel", fresh.as_str(), ANSWER);
    let again = answer_of(rt.alloc(), [5_000, 1_000], [1_000, 5_000])?;
    same(&rt, "behind a full round", again.as_str(), ANSWER);
    Ok(())
}
