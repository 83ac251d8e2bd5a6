use crate::{BurstSet, ChannelTime, Profile};
use std::fmt::Debug;
use std::process::Abort;

/// The one assertion of these tests, since each costs the proof of the function that it stands in. `place` says where
/// in a test.
pub fn same<T: PartialEq + Debug>(rt: &impl Abort, found: &T, wanted: &T, place: &str) {
    assert_eq!(rt; *found, *wanted, "{place}");
}

/// The fields of a profile, in the order of `Profile::new`.
pub type Fields = (u8, u16, u16, u8, u8, bool);

/// The profile of these fields.
pub fn profile_of(fields: Fields) -> Option<Profile> {
    let (bits, preamble, guard, fec_t, fec_k, shortened) = fields;
    Profile::new(bits, preamble, guard, fec_t, fec_k, shortened)
}

/// 16QAM with a preamble of 24 symbols and a guard time of 8, without a code.
pub const BASE: Fields = (4, 24, 8, 0, 200, false);

/// The base profile for long and unsolicited grants, and `short` for short ones of at most 10 minislots. A minislot
/// has 2 ticks at 5,120 ksym/s: 64 symbols.
pub fn base_set(short: Profile) -> Option<BurstSet> {
    let long = profile_of(BASE)?;
    BurstSet::new(ChannelTime::new(1, 5)?, long, short, 10, long)
}
