use super::base::{Case, FIRST, compare};

/// Numbers of up to 20 digits, and of more.
static LENGTHS: [Case; 12] = [
    ("U,0,0,9\n", Ok(1)),
    ("U,0,0,10\n", Ok(1)),
    ("U,4294967296,0,0\n", Ok(1)),
    ("U,9999999999999999999,0,0\n", Ok(1)),
    ("U,10000000000000000000,0,0\n", Ok(1)),
    ("U,0,0,18446744073709551615\n", Ok(1)),
    ("U,0,0,18446744073709551616\n", FIRST),
    ("U,0,0,18446744073709551620\n", FIRST),
    ("U,0,0,28446744073709551615\n", FIRST),
    ("U,0,0,99999999999999999999\n", FIRST),
    ("U,0,0,184467440737095516150\n", FIRST),
    ("U,0,0,100000000000000000000\n", FIRST),
];

#[test]
fn lengths(rt: HostRuntime) {
    compare(&rt, rt.alloc(), &LENGTHS);
}

/// Numbers with a leading zero or another byte.
static FORMS: [Case; 12] = [
    ("U,00,0,0\n", FIRST),
    ("U,01,0,0\n", FIRST),
    ("U,0,0,000\n", FIRST),
    ("U,0,0,018446744073709551615\n", FIRST),
    ("U,+1,0,0\n", FIRST),
    ("U,-1,0,0\n", FIRST),
    ("U,-,0,0\n", FIRST),
    ("U, 1,0,0\n", FIRST),
    ("U,1_0,0,0\n", FIRST),
    ("U,1.0,0,0\n", FIRST),
    ("U,/,0,0\n", FIRST),
    ("U,:,0,0\n", FIRST),
];

#[test]
fn forms(rt: HostRuntime) {
    compare(&rt, rt.alloc(), &FORMS);
}

/// The units of a bucket.
static UNITS: [Case; 9] = [
    ("F,1,0,0,-\n", Ok(1)),
    ("F,1,0,7838,0\n", Ok(1)),
    ("F,1,0,7838,18446744073709551615\n", Ok(1)),
    ("F,1,0,7838,18446744073709551616\n", FIRST),
    ("F,1,0,7838,00\n", FIRST),
    ("F,1,0,0,--\n", FIRST),
    ("F,1,0,0,-1\n", FIRST),
    ("F,1,0,0,\n", FIRST),
    ("F,1,0,-,0\n", FIRST),
];

#[test]
fn units(rt: HostRuntime) {
    compare(&rt, rt.alloc(), &UNITS);
}
