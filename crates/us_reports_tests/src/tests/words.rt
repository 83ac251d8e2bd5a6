use super::base::{Case, FIRST, compare, same};
use us_output::{EntryWord, MissedOccurrence, Row};
use us_reports::report_rows;

/// Each word, in a G line and in an M line.
static WORDS: [Case; 12] = [
    ("G,0,1,ugs,1,0,0,291,11,0,2,0\n", Ok(1)),
    ("G,0,1,ad,1,0,0,291,11,0,2,0\n", Ok(1)),
    ("G,0,1,rtp,1,0,0,291,1,0,2,0\n", Ok(1)),
    ("G,0,1,nrtp,1,0,0,291,1,0,2,0\n", Ok(1)),
    ("G,0,1,station,1,0,0,5,4,2,4,0\n", Ok(1)),
    ("G,0,1,req,1,0,0,291,10,0,32,1000\n", Ok(1)),
    ("M,0,1,ugs,1,0,0\n", Ok(1)),
    ("M,0,1,ad,1,0,0\n", Ok(1)),
    ("M,0,1,rtp,1,0,0\n", Ok(1)),
    ("M,0,1,nrtp,1,0,0\n", Ok(1)),
    ("M,0,1,station,1,0,0\n", Ok(1)),
    ("M,0,1,req,1,0,0\n", FIRST),
];

/// Words that are none.
static OTHERS: [Case; 11] = [
    ("M,0,1,UGS,1,0,0\n", FIRST),
    ("M,0,1,ug,1,0,0\n", FIRST),
    ("M,0,1,ugss,1,0,0\n", FIRST),
    ("M,0,1,a,1,0,0\n", FIRST),
    ("M,0,1,ads,1,0,0\n", FIRST),
    ("M,0,1,AD,1,0,0\n", FIRST),
    ("M,0,1,nrt,1,0,0\n", FIRST),
    ("M,0,1,rtps,1,0,0\n", FIRST),
    ("M,0,1,stations,1,0,0\n", FIRST),
    ("M,0,1,,1,0,0\n", FIRST),
    ("M,0,1,4,1,0,0\n", FIRST),
];

#[test]
fn words(rt: HostRuntime) {
    compare(&rt, rt.alloc(), &WORDS);
    compare(&rt, rt.alloc(), &OTHERS);
}

/// A missed occurrence of this entry.
fn missed(entry: EntryWord) -> Row {
    Row::Missed(MissedOccurrence {
        round: 9,
        channel: 2,
        entry,
        id: 3,
        i: 4,
        k: 5,
    })
}

/// An occurrence missed of each entry.
const MISSED: &str = "\
M,9,2,ugs,3,4,5
M,9,2,ad,3,4,5
M,9,2,rtp,3,4,5
M,9,2,nrtp,3,4,5
M,9,2,station,3,4,5
";

#[test]
fn missed_of_each_word(rt: HostRuntime) {
    let wanted = [
        missed(EntryWord::Unsolicited),
        missed(EntryWord::Activity),
        missed(EntryWord::RealTimePoll),
        missed(EntryWord::NonRealTimePoll),
        missed(EntryWord::Station),
    ];
    match report_rows(rt.alloc(), MISSED.as_bytes()) {
        Ok(rows) => same(&rt, &rows.as_slice(), &wanted.as_slice(), "rows"),
        Err(fault) => same(&rt, &Some(fault), &None, "rows"),
    }
}
