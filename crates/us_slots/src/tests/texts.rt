use super::base::same;
use crate::{Failed, NoMemory, ReadFault};
use std::alloc::AllocError;

/// What each fault is told as: that it is told at all is what no clause says.
#[test]
fn texts_of_faults(rt: HostRuntime) -> Result<(), AllocError> {
    let [large, failed, wanting] = [ReadFault::TooLarge, ReadFault::Failed, ReadFault::NoMemory];
    let told = format!(in rt.alloc(); "{NoMemory}, {Failed}, {large}, {failed}, {wanting}")?;
    let wanted =
        "out of memory, the device failed, too many bytes, the device failed, out of memory";
    same(&rt, &told.as_str(), &wanted, "texts");
    Ok(())
}
