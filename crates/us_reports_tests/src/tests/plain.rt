//! A plain reader of reports beside that of the crate, over damaged lines.

use super::base::{count_of, same};
use std::alloc::Global;
use us_reports::ReportFault;

/// The greatest number of a report.
const MOST: &[u8] = b"18446744073709551615";

/// A line of each kind, and one with the greatest number.
static TEXT: [u8; 103] = *b"\
    G,1,1,req,1,0,0,291,10,0,32,1000\nM,5,1,nrtp,1,1,0\nF,1,0,0,-\n\
    F,1,0,0,18446744073709551615\nA,1,1\nU,0,0,0\n";

fn is_number(field: &[u8]) -> bool {
    let is_short = field.len() < 20 || (field.len() == 20 && field <= MOST);
    let leads = field.len() > 1 && field.first() == Some(&b'0');
    !field.is_empty() && is_short && !leads && field.iter().all(|byte| byte.is_ascii_digit())
}

fn is_of_calendar(field: &[u8]) -> bool {
    [b"ugs".as_slice(), b"ad", b"rtp", b"nrtp", b"station"].contains(&field)
}

/// Whether a field is of a kind: a number, a word of any entry or of a calendar, or units.
fn is_of_kind(kind: u8, field: &[u8]) -> bool {
    match kind {
        b'w' => is_of_calendar(field) || field == b"req".as_slice(),
        b'c' => is_of_calendar(field),
        b'u' => is_number(field) || field == b"-".as_slice(),
        _ => is_number(field),
    }
}

/// The kinds of the fields behind a letter.
fn kinds_behind(letter: &[u8]) -> Option<&'static [u8]> {
    match letter {
        b"G" => Some(b"nnwnnnnnnnn"),
        b"M" => Some(b"nncnnn"),
        b"F" => Some(b"nnnu"),
        b"A" => Some(b"nn"),
        b"U" => Some(b"nnn"),
        _ => None,
    }
}

fn is_line(line: &[u8]) -> bool {
    let mut fields = line.split(|byte| *byte == b',');
    let Some(kinds) = fields.next().and_then(|letter| kinds_behind(letter)) else {
        return false;
    };
    for kind in kinds {
        let Some(field) = fields.next() else {
            return false;
        };
        if !is_of_kind(*kind, field) {
            return false;
        }
    }
    fields.next().is_none()
}

/// How many lines a text has, or which of them is the first that is none.
fn plain_count(text: &[u8]) -> Result<usize, ReportFault> {
    let mut read: u64 = 0;
    for line in text.split_inclusive(|byte| *byte == b'\n') {
        match line.strip_suffix(b"\n".as_slice()) {
            Some(told) if is_line(told) => read = read.wrapping_add(1),
            _ => return Err(ReportFault::Line(read.wrapping_add(1))),
        }
    }
    Ok(read as usize)
}

/// Whether both read the same of the text with another byte in this place.
fn is_same_with(alloc: Global, place: usize, byte: u8) -> bool {
    let mut text = TEXT;
    if let Some(changed) = text.get_mut(place) {
        *changed = byte;
    }
    count_of(alloc, &text) == plain_count(&text)
}

#[test]
fn any_byte_changed(rt: HostRuntime) {
    for place in 0..103 {
        for byte in *b"019,-\nGMFAUqu\0\xff" {
            let is_same = is_same_with(rt.alloc(), place, byte);
            same(
                &rt,
                &(place, byte, is_same),
                &(place, byte, true),
                "a byte changed",
            );
        }
    }
}
