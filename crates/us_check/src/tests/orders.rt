//! Reports whose lines stand in another order than MAPs: no clause says that these are judged at all, since want of memory
//! is tied down by none.

use super::base::{broken, same, verdict_in};
use crate::{CheckFault, Rule};
use us_samples::base;

/// The stored run with a round more, in which nothing is granted.
static THREE_MAPS: [u8; 106] = [
    0, 0, 0, 0, 0, 28, 1, 0, 3, 0, 0, 0, 0, 0, 0, 0, 0, 0, 2, 6, 3, 8, 0xff, 0xfc, 0x40, 0, 0xff,
    0xfc, 0x40, 150, 0, 1, 0xc0, 160, 0, 0, 0, 1, 0, 32, 1, 0, 4, 0, 0, 0, 0, 160, 0, 0, 0, 80, 2,
    6, 3, 8, 0x04, 0x8e, 0x80, 0, 0xff, 0xfc, 0x40, 0x20, 0xff, 0xfc, 0x40, 150, 0, 1, 0xc0, 160,
    0, 0, 0, 2, 0, 28, 1, 0, 3, 0, 0, 0, 1, 64, 0, 0, 0, 240, 2, 6, 3, 8, 0xff, 0xfc, 0x40, 0,
    0xff, 0xfc, 0x40, 150, 0, 1, 0xc0, 160,
];

/// Grants that no MAP of three has, or a missed occurrence among them: the first is that of the first MAP.
static ORDERS: [&str; 3] = [
    "G,2,1,req,1,0,0,291,10,0,32,9\nG,1,1,req,1,0,0,291,10,0,32,9\nG,0,1,req,1,0,0,291,10,0,32,9\n",
    "G,1,1,req,1,0,0,291,10,0,32,9\nG,2,1,req,1,0,0,291,10,0,32,9\nG,0,1,req,1,0,0,291,10,0,32,9\n",
    "M,2,1,station,7,0,0\nG,1,1,req,1,0,0,291,10,0,32,9\nG,0,1,req,1,0,0,291,10,0,32,9\n",
];

/// A line of no report behind lines that turn back.
static BAD_LINE: &str = "G,2,1,req,1,0,0,291,10,0,32,9\nG,1,1,req,1,0,0,291,10,0,32,9\nG,1\n";

#[test]
fn lines_in_other_orders(rt: HostRuntime) {
    for report in &ORDERS {
        let found = verdict_in(rt.alloc(), base(), 3, &THREE_MAPS, report);
        same(&rt, &found, &broken(Rule::Minislots, 0, 1, 0), report);
    }
    let found = verdict_in(rt.alloc(), base(), 3, &THREE_MAPS, BAD_LINE);
    same(&rt, &found, &Err(CheckFault::Report(3)), BAD_LINE);
}
