use std::fmt::Debug;
use std::process::Abort;

/// The one assertion of these tests, since each costs the proof of the function that it stands in. `place` says where
/// in a test.
pub fn same<T: PartialEq + Debug>(rt: &impl Abort, found: &T, wanted: &T, place: &str) {
    assert_eq!(rt; *found, *wanted, "{place}");
}
