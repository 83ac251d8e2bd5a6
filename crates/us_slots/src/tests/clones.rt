use super::base::{BASE, base_set, profile_of, same};
use crate::Iuc;

/// Whether a clone is equal to the value.
fn is_cloned<T: Clone + PartialEq + Drop>(value: &T) -> bool {
    match value.clone() {
        Ok(clone) => clone == *value,
        Err(_) => false,
    }
}

/// The same of each type.
fn clones() -> Option<[bool; 4]> {
    let profile = profile_of(BASE)?;
    let set = base_set(profile)?;
    Some([
        is_cloned(set.time()),
        is_cloned(&profile),
        is_cloned(&set),
        is_cloned(&Iuc::null()),
    ])
}

#[test]
fn clones_are_equal(rt: HostRuntime) {
    same(&rt, &clones(), &Some([true; 4]), "clones");
}
