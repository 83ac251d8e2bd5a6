use super::base::{Case, FIRST, compare, count_of, same};
use std::alloc::Global;
use std::fmt;
use std::process::Abort;
use us_output::{EntryWord, FinalActivity, FinalState, Grant, Row, TraceCounts};
use us_reports::{LineReader, ReportFault, line_at, lines_end, report_rows};

/// The report of the stored run.
static STORED: [u8; 51] = *b"G,1,1,req,1,0,0,291,10,0,32,1000\nF,1,0,0,-\nU,0,0,0\n";

/// Its rows.
static ROWS: [Row; 3] = [
    Row::Granted(Grant {
        round: 1,
        channel: 1,
        entry: EntryWord::Requested,
        id: 1,
        i: 0,
        k: 0,
        sid: 291,
        iuc: 10,
        start: 0,
        slots: 32,
        credit: 1_000,
    }),
    Row::Final(FinalState {
        flow: 1,
        cluster: 0,
        outstanding: 0,
        units: None,
    }),
    Row::Counts(TraceCounts {
        unknown: 0,
        not_requestable: 0,
        late: 0,
    }),
];

#[test]
fn the_stored_report(rt: HostRuntime) {
    match report_rows(rt.alloc(), &STORED) {
        Ok(rows) => same(&rt, &rows.as_slice(), &ROWS.as_slice(), "rows"),
        Err(fault) => same(&rt, &Some(fault), &None, "rows"),
    }
}

/// A line begins at its letter alone, and the next one behind its line feed.
#[test]
fn every_place(rt: HostRuntime) {
    let end = lines_end(&STORED);
    same(&rt, &end, &51, "the end");
    for place in 0..60 {
        let found = line_at(&STORED, end, place).map(|(_row, next)| next);
        let wanted = match place {
            0 => Some(33),
            33 => Some(43),
            43 => Some(51),
            _ => None,
        };
        same(&rt, &(place, found), &(place, wanted), "a place");
    }
}

/// Lines of each kind, some after one of their kind and some after one of another.
const KINDS: &[u8] = b"\
    G,1,2,ugs,3,4,5,6,7,8,9,10\nM,1,2,ad,3,4,5\nG,11,2,req,1,0,0,291,10,0,32,1000\n\
    G,11,21,nrtp,1,0,0,291,10,0,32,0\nF,1,0,0,-\nF,1,0,0,7\nA,1,1\nM,1,2,station,0,0,0\nU,0,0,0\n";

/// Reads a text line after line, `count` times, and compares each line with the one that is read alone. Behind what is no
/// line it doesn't go on.
fn read_on(rt: &impl Abort, reader: &mut LineReader, text: &[u8], count: u64) {
    let end = lines_end(text);
    let mut at = 0;
    for _ in 0..count {
        let next = reader.read(text, end, at);
        let found = next.map(|next| (*reader.row(), next));
        same(rt, &(at, found), &(at, line_at(text, end, at)), "a line");
        at = next.unwrap_or(at);
    }
}

/// Each line is written over the row of the one before, and nothing of that is left.
#[test]
fn one_over_another(rt: HostRuntime) {
    let mut reader = LineReader::new();
    read_on(&rt, &mut reader, KINDS, 9);
    same(&rt, reader.row(), &ROWS[2], "the last row");
}

/// Lines whose fronts are the same, change, get longer, have too few or too many bytes to be remembered, or differ in their
/// first or last byte alone; the last line has fewer bytes than most fronts.
const FRONTS: &[u8] = b"\
    G,1,2,ugs,3,4,5,6,7,8,9,10\nG,1,2,ad,0,0,0,0,0,0,0,0\nG,10,12,rtp,1,2,3,4,5,6,7,8\n\
    G,10,12,req,9,1,0,8,7,6,5,4\nG,10,13,nrtp,1,0,0,1,1,10,20,0\nM,10,13,ugs,1,0,0\n\
    G,10,13,nrtp,1,0,0,1,1,30,20,0\nG,100,13,ugs,1,0,0,1,1,0,1,1\nG,1000,13,ugs,1,0,0,1,1,0,1,1\n\
    G,2000,13,ugs,1,0,0,1,1,0,1,1\nG,2000,14,ugs,1,0,0,1,1,0,1,1\nG,2000,1,ugs,1,0,0,1,1,0,1,1\n\
    G,123456789,12,ugs,1,0,0,1,1,0,1,1\nG,123456789,12,ugs,2,0,0,1,1,0,1,1\n\
    G,123456789,123,ugs,1,0,0,1,1,0,1,1\nG,123456789,123,ugs,2,0,0,1,1,0,1,1\n\
    G,123456789,1234,ugs,1,0,0,1,1,0,1,1\nG,123456789,1234,ugs,2,0,0,1,1,0,1,1\n\
    G,18446744073709551615,65535,ugs,1,0,0,1,1,0,1,1\nF,1,0,0,-\nA,1,1\nU,0,0,0\n";

/// What is remembered of a line changes none behind it, of the same text or of another.
#[test]
fn one_front_after_another(rt: HostRuntime) {
    let mut reader = LineReader::new();
    for text in [FRONTS, KINDS, FRONTS, &STORED] {
        read_on(&rt, &mut reader, text, 24);
    }
}

/// A line with the front of the one before may be none, and the next one is read by that front again.
#[test]
fn a_front_and_no_line(rt: HostRuntime) {
    let mut reader = LineReader::new();
    for text in [
        b"G,1000,12,ugs,1,0,0,1,1,0,1,1\n".as_slice(),
        b"G,1000,12,ugs,1,0,0,1,1,0,1\n",
        b"G,1000,12,ugs,2,0,0,1,1,0,1,1\n",
        b"G,1000,12,",
        b"G,1000,12,\n",
        b"G,1000,1\n",
        b"G,1000,13,ugs,2,0,0,1,1,0,1,01\n",
        b"G,1000,12,ugs,3,0,0,1,1,0,1,1\n",
        b"M,1000,12,req,1,0,0\n",
        b"G,1000,12,ad,3,0,0,1,1,0,1,1\n",
    ] {
        read_on(&rt, &mut reader, text, 2);
    }
}

/// Where no line begins, none is answered.
#[test]
fn no_line(rt: HostRuntime) {
    let mut reader = LineReader::new();
    for text in [
        b"".as_slice(),
        b"\n",
        b"G,1,2\n",
        b"M,1,2,req,3,4,5\n",
        b"X\n",
    ] {
        let found = reader.read(text, lines_end(text), 0);
        same(&rt, &(text, found), &(text, None), "a text");
    }
}

/// The line of the stored report that has this place, or that a cut there leaves without its end.
fn line_of(place: usize) -> u64 {
    if place < 33 {
        1
    } else if place < 43 {
        2
    } else {
        3
    }
}

/// A front of a report is one only where it ends behind a line feed.
#[test]
fn every_prefix(rt: HostRuntime) {
    for end in 0..=51 {
        let found = count_of(rt.alloc(), &STORED[..end]);
        let wanted = match end {
            0 => Ok(0),
            33 => Ok(1),
            43 => Ok(2),
            51 => Ok(3),
            _ => Err(ReportFault::Line(line_of(end))),
        };
        same(&rt, &(end, found), &(end, wanted), "a prefix");
    }
}

/// What the stored report is read as with another byte in this place.
fn with_byte(alloc: Global, place: usize, byte: u8) -> Result<usize, ReportFault> {
    let mut report = STORED;
    if let Some(changed) = report.get_mut(place) {
        *changed = byte;
    }
    count_of(alloc, &report)
}

#[test]
fn every_byte(rt: HostRuntime) {
    for place in 0..51 {
        let alloc = rt.alloc();
        let found = [with_byte(alloc, place, 0), with_byte(alloc, place, 0xff)];
        let wanted = [Err(ReportFault::Line(line_of(place))); 2];
        same(&rt, &(place, found), &(place, wanted), "a byte");
    }
}

/// A lines: of a flow that is active, of one that is silent, and of one whose last number says neither.
#[test]
fn activities(rt: HostRuntime) {
    let wanted = [
        Row::Activity(FinalActivity { flow: 1, active: 1 }),
        Row::Activity(FinalActivity {
            flow: 65_535,
            active: 0,
        }),
        Row::Activity(FinalActivity {
            flow: 0,
            active: u64::MAX,
        }),
    ];
    match report_rows(rt.alloc(), b"A,1,1\nA,65535,0\nA,0,18446744073709551615\n") {
        Ok(rows) => same(&rt, &rows.as_slice(), &wanted.as_slice(), "rows"),
        Err(fault) => same(&rt, &Some(fault), &None, "rows"),
    }
}

/// Lines that are none, alone, before others and behind them.
static LINES: [Case; 30] = [
    ("", Ok(0)),
    ("G,1\n", FIRST),
    ("M,0,1,req,1,0,0\n", FIRST),
    ("U,0,0,0", FIRST),
    ("U,0,0,0\n", Ok(1)),
    ("U,0,0,0\r\n", FIRST),
    ("U,0,0,0 \n", FIRST),
    ("U,0,0,0\n\n", Err(ReportFault::Line(2))),
    ("\nU,0,0,0\n", FIRST),
    ("U,0,0\n", FIRST),
    ("U,0,0,0,0\n", FIRST),
    ("U,0,0,\n", FIRST),
    ("U,0,,0\n", FIRST),
    ("U0,0,0\n", FIRST),
    ("U;0;0;0\n", FIRST),
    ("u,0,0,0\n", FIRST),
    ("A,0,0,0\n", FIRST),
    ("A,0\n", FIRST),
    ("A,1,01\n", FIRST),
    ("A,1,-\n", FIRST),
    ("A,1,18446744073709551616\n", FIRST),
    ("a,1,1\n", FIRST),
    ("U,0,0,0\nA,1,1\nA,1\n", Err(ReportFault::Line(3))),
    ("U,0,0,0\nU,0,0,0\nU,0,0\n", Err(ReportFault::Line(3))),
    ("U,0,0,0\nM,0,1,req,1,0,0\nG,1\n", Err(ReportFault::Line(2))),
    ("M,5,1,ugs,1,1\n", FIRST),
    ("M,5,1,ugs,1,1,0,0\n", FIRST),
    ("G,1,1,req,1,0,0,291,10,0,32\n", FIRST),
    ("G,1,1,req,1,0,0,291,10,0,32,1000,0\n", FIRST),
    ("F,1,0,0\n", FIRST),
];

#[test]
fn lines(rt: HostRuntime) {
    compare(&rt, rt.alloc(), &LINES);
}

/// The texts of both faults, one a line.
fn text_of_faults(alloc: Global) -> Result<String, fmt::Error> {
    let mut text = String::new(alloc);
    writeln!(text, "{}", ReportFault::Line(4))?;
    writeln!(text, "{}", ReportFault::NoMemory)?;
    Ok(text)
}

const TEXTS: &str = "\
line 4 is none of a report
out of memory
";

#[test]
fn texts_of_report_faults(rt: HostRuntime) {
    match text_of_faults(rt.alloc()) {
        Ok(text) => same(&rt, &text.as_str(), &TEXTS, "faults"),
        Err(_) => same(&rt, &"no memory", &"faults", "faults"),
    }
}
