//! Pieces of the lines of a report: each answers what stands at a place of a text, and the place behind it. A line feed
//! stands there or behind it, and none goes over one, so that none looks for the end of the text.

ghost use Rattle.std.specs.Char.{is_ascii_digit};
ghost use Rattle.std.specs.List.{list_all};
ghost use Rattle.std.specs.Prelude.{◌≡◌, ◌<◌, ◌≤◌, ◌==◌, ◌^◌, not, codes, drop, length, option_map, IfSome, MatchOption, IsTrue};
ghost use Rattle.us_reports.specs.ReportReaders as spec;
ghost use Rattle.us_reports.specs.ReportReaders.{HasLineFeed};

use us_output::EntryWord;

/// Behind what is less, any digit keeps a number within 64 bits.
const ROOM: u64 = u64::MAX / 10;

/// The place behind a word, in which no line feed is.
#[tactic(auto, using(crate::proofs::ReportPlaceLemmas::places), unfolding(crate::specs::ReportReaders::after))]
#[inline(always)]
pub(crate) fn after(word: &[u8], bytes: &[u8], from: usize) -> Option<usize>
    requires feed { HasLineFeed bytes.now from }
    requires other { IsTrue (list_all (λ byte. not (byte == 10)) word.now) }
    ensures read { option_map (λ found. drop found bytes.now) result ≡ spec.after word.now (drop from bytes.now) }
    ensures feed { IfSome result (λ found. HasLineFeed bytes.now found) }
{
    let mut at = from;
    for byte in word {
        if bytes[at] != *byte {
            return None;
        }
        at += 1;
    }
    Some(at)
}

/// The place behind a line feed.
#[tactic(auto, using(crate::proofs::ReportPlaceLemmas::places), unfolding(crate::specs::ReportReaders::after))]
#[inline(always)]
pub(crate) fn line_feed(bytes: &[u8], from: usize) -> Option<usize>
    requires { HasLineFeed bytes.now from }
    ensures read { option_map (λ found. drop found bytes.now) result ≡ spec.after (codes "\n") (drop from bytes.now) }
    ensures within { IfSome result (λ found. found ≤ length bytes.now) }
{
    if bytes[from] != b'\n' {
        return None;
    }
    Some(from + 1)
}

/// A comma and a number.
#[tactic(auto, unfolding(crate::specs::ReportReaders::field_at))]
#[inline(always)]
pub(crate) fn field(bytes: &[u8], from: usize) -> Option<(u64, usize)>
    requires { HasLineFeed bytes.now from }
    ensures read { option_map (λ found. (found.0, drop found.1 bytes.now)) result ≡ spec.field_at (drop from bytes.now) }
    ensures feed { IfSome result (λ found. HasLineFeed bytes.now found.1) }
{
    number(bytes, after(b",", bytes, from)?)
}

/// A number: no leading zero, and at most `2^64 - 1`. What begins with 0 is that number alone: no line goes on with a digit
/// behind it.
#[tactic(auto, using(crate::proofs::ReportPlaceLemmas::places), unfolding(crate::specs::ReportReaders::number_at))]
#[inline(always)]
fn number(bytes: &[u8], from: usize) -> Option<(u64, usize)>
    requires { HasLineFeed bytes.now from }
    ensures read { option_map (λ found. (found.0, drop found.1 bytes.now)) result ≡ spec.number_at (drop from bytes.now) }
    ensures feed { IfSome result (λ found. HasLineFeed bytes.now found.1) }
{
    let first = bytes[from];
    if first == b'0' {
        return Some((0, from + 1));
    }
    if !first.is_ascii_digit() {
        return None;
    }
    few_digits(u64::from(first - b'0'), bytes, from + 1)
}

/// A number up to the first byte that is no digit, of which the first digit is `one`. Most have three digits or fewer, and
/// these can't pass 64 bits.
#[tactic(auto, using(crate::proofs::ReportPlaceLemmas::places, crate::proofs::ReportPlaceLemmas::digits))]
#[inline(always)]
fn few_digits(one: u64, bytes: &[u8], from: usize) -> Option<(u64, usize)>
    requires feed { HasLineFeed bytes.now from }
    requires digit { one < 10 }
    ensures read { option_map (λ found. (found.0, drop found.1 bytes.now)) result ≡ spec.more_digits one (drop from bytes.now) }
    ensures feed { IfSome result (λ found. HasLineFeed bytes.now found.1) }
{
    if !bytes[from].is_ascii_digit() {
        return Some((one, from));
    }
    let two = 10 * one + u64::from(bytes[from] - b'0');
    if !bytes[from + 1].is_ascii_digit() {
        return Some((two, from + 1));
    }
    let three = 10 * two + u64::from(bytes[from + 1] - b'0');
    more_digits(three, bytes, from + 2)
}

/// A number up to the first byte that is no digit, of which the digits so far tell `high`.
#[tactic(auto, using(crate::proofs::ReportPlaceLemmas::places, crate::proofs::ReportPlaceLemmas::digits))]
#[inline(always)]
fn more_digits(high: u64, bytes: &[u8], from: usize) -> Option<(u64, usize)>
    requires { HasLineFeed bytes.now from }
    ensures read { option_map (λ found. (found.0, drop found.1 bytes.now)) result ≡ spec.more_digits high (drop from bytes.now) }
    ensures feed { IfSome result (λ found. HasLineFeed bytes.now found.1) }
{
    let mut number = high;
    let mut at = from;
    while bytes[at].is_ascii_digit() {
        number = with_digit(number, bytes[at])?;
        at += 1;
    }
    Some((number, at))
}

/// A number with one digit more behind it, where that has 64 bits.
#[inline(always)]
fn with_digit(high: u64, digit: u8) -> Option<u64>
    requires { IsTrue (is_ascii_digit digit) }
    ensures { MatchOption result (2 ^ 64 ≤ spec.with_digit high digit) (λ next. (next ≡ spec.with_digit high digit) × (next < 2 ^ 64)) }
{
    let units = u64::from(digit - b'0');
    if high < ROOM {
        return Some(10 * high + units);
    }
    high.checked_mul(10)?.checked_add(units)
}

/// The word of an entry.
#[tactic(auto, unfolding(crate::specs::ReportReaders::word_at, crate::specs::ReportReaders::spelled_at))]
#[inline(always)]
pub(crate) fn word(bytes: &[u8], from: usize) -> Option<(EntryWord, usize)>
    requires { HasLineFeed bytes.now from }
    ensures read { option_map (λ found. (found.0, drop found.1 bytes.now)) result ≡ spec.word_at (drop from bytes.now) }
    ensures feed { IfSome result (λ found. HasLineFeed bytes.now found.1) }
{
    if let Some(at) = after(b"ugs", bytes, from) {
        return Some((EntryWord::Unsolicited, at));
    }
    if let Some(at) = after(b"ad", bytes, from) {
        return Some((EntryWord::Activity, at));
    }
    if let Some(at) = after(b"rtp", bytes, from) {
        return Some((EntryWord::RealTimePoll, at));
    }
    if let Some(at) = after(b"nrtp", bytes, from) {
        return Some((EntryWord::NonRealTimePoll, at));
    }
    if let Some(at) = after(b"station", bytes, from) {
        return Some((EntryWord::Station, at));
    }
    Some((EntryWord::Requested, after(b"req", bytes, from)?))
}

/// The units of a bucket, or `-`.
#[tactic(auto, unfolding(crate::specs::ReportReaders::units_at))]
pub(crate) fn units(bytes: &[u8], from: usize) -> Option<(Option<u64>, usize)>
    requires { HasLineFeed bytes.now from }
    ensures read { option_map (λ found. (found.0, drop found.1 bytes.now)) result ≡ spec.units_at (drop from bytes.now) }
    ensures feed { IfSome result (λ found. HasLineFeed bytes.now found.1) }
{
    if let Some(at) = after(b"-", bytes, from) {
        return Some((None, at));
    }
    let (units, at) = number(bytes, from)?;
    Some((Some(units), at))
}
