use std::alloc::Global;
use std::process::Abort;
use us_flows::{Config, ConfigFault};
use us_map_rules::{MapRegions, Taken};
use us_reports::{Place, report_rows};
use us_requests::Trace;
use us_samples::{base, put_channel};
use us_slots::FromRead;

/// The elements of a MAP with nothing but its contention reserve: a gap, the reserve and the Null.
const QUIET: &[u32] = &[0xfffc_4000, 0xfffc_4096, 0x0001_c0a0];

/// Those of the second MAP of the stored run, with the grant before them.
const GRANTED: &[u32] = &[0x048e_8000, 0xfffc_4020, 0xfffc_4096, 0x0001_c0a0];

/// Its line.
const LINE: &str = "G,1,1,req,1,0,0,291,10,0,32,1000\n";

/// A run of two rounds, and where its minislots aren't what they must be.
#[derive(Clone, Copy)]
struct Case<'a> {
    name: &'a str,
    /// The elements of each MAP, by round and then by channel.
    maps: &'a [&'a [u32]],
    report: &'a str,
    /// Round, channel and minislot.
    answer: Option<(u64, u64, u64)>,
}

fn at((round, channel, third): (u64, u64, u64)) -> Place {
    Place {
        round,
        channel,
        third,
    }
}

/// Judges each case by a configuration.
fn compare(rt: &impl Abort, alloc: Global, config: &Config, cases: &[Case<'_>]) {
    for case in cases {
        let answer = judge(alloc, config, case);
        assert_eq!(rt; answer, Some(case.answer.map(at)), "{}", case.name);
    }
}

/// Where a case is broken; nothing where it can't be judged: where memory is refused, or a line comes too late.
fn judge(alloc: Global, config: &Config, case: &Case<'_>) -> Option<Option<Place>> {
    let trace = empty_trace(alloc, config)?;
    let file = file_of(alloc, case)?;
    let lines = report_rows(alloc, case.report.as_bytes()).ok()?;
    let mut regions = MapRegions::new(alloc);
    for line in &lines {
        if matches!(regions.take(config, &trace, &file, line).ok()?, Taken::Late) {
            return None;
        }
    }
    regions.breach(config, &trace, &file).ok()
}

/// The trace of no request, for two rounds.
fn empty_trace(alloc: Global, config: &Config) -> Option<Trace> {
    let mut source = FromRead::new(&b"tick,channel,sid,units\n"[..]);
    if config.rounds_fit(2) {
        Trace::read(alloc, &mut source, config, 2).ok()
    } else {
        None
    }
}

/// The maps file of a case.
fn file_of(alloc: Global, case: &Case<'_>) -> Option<Vec<u8>> {
    let mut file = Vec::new(alloc);
    for words in case.maps {
        push_record(&mut file, words)?;
    }
    Some(file)
}

/// Puts the record of a MAP of these elements to a file. What stands before them plays no part in this rule.
fn push_record(file: &mut Vec<u8>, words: &[u32]) -> Option<()> {
    let count = u8::try_from(words.len()).ok()?;
    file.extend_from_slice(&[0, 0, 0, 0]).ok()?;
    file.extend_from_slice(&(16 + 4 * u16::from(count)).to_be_bytes())
        .ok()?;
    file.extend_from_slice(&[1, 0, count, 0, 0, 0, 0, 0, 0, 0, 0, 0, 2, 6, 3, 8])
        .ok()?;
    for word in words {
        file.extend_from_slice(&word.to_be_bytes()).ok()?;
    }
    Some(())
}

/// Judges each case by the configuration of this text.
fn compare_by(
    rt: &impl Abort,
    alloc: Global,
    text: &str,
    cases: &[Case<'_>],
) -> Result<(), ConfigFault> {
    let config = Config::read(alloc, text.as_bytes())?;
    compare(rt, alloc, &config, cases);
    Ok(())
}

/// A grant that reaches into the contention reserve.
const LATE: Case<'static> = Case {
    name: "the grant reaches into the reserve",
    maps: &[QUIET, &[0xfffc_4000, 0x048e_8080, 0x0001_c0a0]],
    report: "G,1,1,req,1,0,0,291,10,128,32,1000\n",
    answer: Some((1, 1, 150)),
};

#[test]
fn of_maps(rt: HostRuntime) -> Result<(), ConfigFault> {
    let stored = Case {
        name: "as it is stored",
        maps: &[QUIET, GRANTED],
        report: LINE,
        answer: None,
    };
    let surplus = Case {
        name: "with a MAP too many",
        maps: &[QUIET, GRANTED, QUIET],
        ..stored
    };
    let missing = Case {
        name: "with the second MAP missing",
        maps: &[QUIET],
        answer: Some((1, 1, 0)),
        ..stored
    };
    let none = Case {
        name: "with no MAP",
        maps: &[],
        answer: Some((0, 1, 0)),
        ..stored
    };
    compare_by(
        &rt,
        rt.alloc(),
        base(),
        &[stored, surplus, missing, none, LATE],
    )
}

#[test]
fn of_lines(rt: HostRuntime) -> Result<(), ConfigFault> {
    let empty = Case {
        name: "a grant of no minislot",
        maps: &[QUIET, GRANTED],
        report: "G,1,1,req,1,0,0,291,10,40,0,1\nG,1,1,req,1,0,0,291,10,0,32,1000\n",
        answer: Some((1, 1, 40)),
    };
    let two_owners = Case {
        name: "a minislot of two grants",
        report: "G,1,1,req,1,0,0,300,10,31,1,1\nG,1,1,req,1,0,0,291,10,0,32,1000\n",
        answer: Some((1, 1, 31)),
        ..empty
    };
    let outside = Case {
        name: "a grant that starts where the MAP ends",
        report: "G,1,1,req,1,0,0,291,10,0,32,1000\nG,1,1,req,1,0,0,291,10,160,1,1\n",
        answer: Some((1, 1, 160)),
        ..empty
    };
    let far_outside = Case {
        name: "numbers at their limit",
        report: "G,1,1,req,1,0,0,291,10,0,32,1000
G,1,1,req,1,0,0,1,1,18446744073709551615,18446744073709551615,1\n",
        answer: Some((1, 1, 160)),
        ..empty
    };
    let lacking = Case {
        name: "lines of rounds and channels that the run lacks",
        report: "G,2,1,req,1,0,0,291,10,0,1,1\nG,1,2,req,1,0,0,291,10,0,1,1
G,18446744073709551615,18446744073709551615,req,1,0,0,1,1,0,1,1\nG,1,1,req,1,0,0,291,10,0,32,1000\n",
        answer: None,
        ..empty
    };
    compare_by(
        &rt,
        rt.alloc(),
        base(),
        &[empty, two_owners, outside, far_outside, lacking],
    )
}

#[test]
fn of_elements(rt: HostRuntime) -> Result<(), ConfigFault> {
    let nobody = Case {
        name: "a gap that addresses nobody",
        maps: &[&[0x0000_4000, 0xfffc_4096, 0x0001_c0a0], GRANTED],
        report: LINE,
        answer: Some((0, 1, 0)),
    };
    let parted = Case {
        name: "a gap of two elements",
        maps: &[
            &[0xfffc_4000, 0xfffc_404b, 0xfffc_4096, 0x0001_c0a0],
            GRANTED,
        ],
        ..nobody
    };
    let short = Case {
        name: "elements that end early",
        maps: &[&[0xfffc_4000, 0x0001_c096], GRANTED],
        answer: Some((0, 1, 150)),
        ..nobody
    };
    let other_sid = Case {
        name: "an element of another SID",
        maps: &[QUIET, &[0x0492_8000, 0xfffc_4020, 0xfffc_4096, 0x0001_c0a0]],
        answer: Some((1, 1, 0)),
        ..nobody
    };
    let in_any_order = Case {
        name: "lines in any order",
        maps: &[
            QUIET,
            &[
                0x048e_8000,
                0x048e_8020,
                0xfffc_4028,
                0xfffc_4096,
                0x0001_c0a0,
            ],
        ],
        report: "G,1,1,req,1,0,0,291,10,32,8,1\nG,1,1,req,1,0,0,291,10,0,32,1000\n",
        answer: None,
    };
    compare_by(
        &rt,
        rt.alloc(),
        base(),
        &[nobody, parted, short, other_sid, in_any_order],
    )
}

/// Channels 2 and 1, in this order.
#[test]
fn of_two_channels(rt: HostRuntime) -> Result<(), ConfigFault> {
    let mut text = String::new(rt.alloc());
    put_channel(&mut text, 2)?;
    put_channel(&mut text, 1)?;
    let nobody: &[u32] = &[0x0000_4000, 0xfffc_4096, 0x0001_c0a0];
    let lawful = Case {
        name: "a grant on the second channel",
        maps: &[QUIET, QUIET, QUIET, GRANTED],
        report: LINE,
        answer: None,
    };
    let all = Case {
        name: "a grant in each MAP but the first",
        maps: &[QUIET, GRANTED, GRANTED, GRANTED],
        report: "G,0,1,req,1,0,0,291,10,0,32,1000\nG,1,2,req,1,0,0,291,10,0,32,1000\nG,1,1,req,1,0,0,291,10,0,32,1000\n",
        ..lawful
    };
    let other_channel = Case {
        name: "a line on the other channel",
        report: "G,1,2,req,1,0,0,291,10,0,32,1000\n",
        answer: Some((1, 2, 0)),
        ..lawful
    };
    let both = Case {
        name: "both MAPs of a round",
        maps: &[QUIET, QUIET, nobody, nobody],
        answer: Some((1, 2, 0)),
        ..lawful
    };
    let earlier = Case {
        name: "MAPs of both rounds",
        maps: &[QUIET, nobody, nobody, GRANTED],
        answer: Some((0, 1, 0)),
        ..lawful
    };
    compare_by(
        &rt,
        rt.alloc(),
        text.as_str(),
        &[lawful, all, other_channel, both, earlier],
    )
}

/// A line of a MAP before that of another line isn't told.
#[test]
fn late_line(rt: HostRuntime) -> Result<(), ConfigFault> {
    let late = Case {
        name: "a line of the first MAP behind one of the second",
        maps: &[QUIET, GRANTED],
        report: "G,1,1,req,1,0,0,291,10,0,32,1000\nG,0,1,req,1,0,0,291,10,0,32,1000\n",
        answer: None,
    };
    let config = Config::read(rt.alloc(), base().as_bytes())?;
    assert_eq!(rt; judge(rt.alloc(), &config, &late), None);
    Ok(())
}

/// A maintenance reserve of 3 minislots in every other round.
#[test]
fn of_maintenance(rt: HostRuntime) -> Result<(), ConfigFault> {
    let mark = "maintenance_minislots = 0\nmaintenance_every = 1\n";
    let (front, behind) = base().split_once(mark).unwrap_or((base(), ""));
    let text = format!(in rt.alloc();
        "{front}maintenance_minislots = 3\nmaintenance_every = 2\n{behind}"
    )?;
    let kept = Case {
        name: "a reserve",
        maps: &[
            &[0xfffc_c000, 0xfffc_4003, 0xfffc_4096, 0x0001_c0a0],
            GRANTED,
        ],
        report: LINE,
        answer: None,
    };
    let forgotten = Case {
        name: "no reserve",
        maps: &[QUIET, GRANTED],
        answer: Some((0, 1, 0)),
        ..kept
    };
    let held = Case {
        name: "a grant in the reserve",
        report: "G,0,1,req,1,0,0,291,10,2,1,1\nG,1,1,req,1,0,0,291,10,0,32,1000\n",
        answer: Some((0, 1, 2)),
        ..kept
    };
    compare_by(&rt, rt.alloc(), text.as_str(), &[kept, forgotten, held])
}

/// Run by `tools/refuse-memory` too, where each allocation is refused in turn.
#[test]
fn refused_memory(rt: HostRuntime) {
    if let Ok(config) = Config::read(rt.alloc(), base().as_bytes()) {
        // else it was refused
        if let Some(answer) = judge(rt.alloc(), &config, &LATE) {
            assert_eq!(rt; answer, LATE.answer.map(at));
        }
    }
}
