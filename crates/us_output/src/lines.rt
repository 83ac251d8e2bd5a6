ghost use Rattle.std.specs.Prelude.{◌≡◌, ◌+◌, ◌*◌, ◌^◌, ◌<◌, ◌≤◌, [], ◌∷◌, ◌++◌, length, take, IfSome};
ghost use Rattle.std.specs.Fmt.{decimal};
ghost use Rattle.us_output.specs.Lines as spec;
ghost use Rattle.us_output.specs.Lines.{Fit, HasFields};
ghost use Rattle.us_output.specs.declared.rows.Row.TheVariants as rows;

use crate::digits::{put_short, put_three};
use crate::puts::{put_byte, put_bytes, put_first, put_some};
use crate::rows::{
    EntryWord, FinalActivity, FinalState, Grant, MissedOccurrence, Row, TraceCounts,
};

/// More bytes than any line has: a letter, ten numbers, a word of seven letters behind a comma and the line feed are 220.
pub(crate) const LINE_BYTES: usize = 256;

/// The most bytes of a comma and a number: the greatest has twenty digits.
const FIELD_BYTES: usize = 21;

/// The digits of the greatest number.
const MAX_DIGITS: usize = 20;

/// Puts a row's line, with its line feed, behind what stands before `at`. Inlined, as each line of a round is put by it.
#[inline(always)]
pub(crate) fn put_line(out: &mut [u8], at: usize, row: &Row) -> usize
    requires { at + LINE_BYTES ≤ length out.old }
    ensures end { result ≤ length out.old }
    ensures line { take result out.new ≡ take at out.old ++ spec.text_of row.now }
    ensures fields { HasFields row.now }
{
    match row {
        Row::Granted(grant) => put_grant(out, at, grant),
        Row::Missed(missed) => put_missed(out, at, missed),
        Row::Final(state) => put_final(out, at, state),
        Row::Activity(activity) => put_activity(out, at, activity),
        Row::Counts(counts) => put_counts(out, at, counts),
    }
}

/// Puts a G line.
#[inline(always)]
fn put_grant(out: &mut [u8], at: usize, grant: &Grant) -> usize
    requires { at + LINE_BYTES ≤ length out.old }
    ensures end { result ≤ length out.old }
    ensures line { take result out.new ≡ take at out.old ++ spec.grant_text grant.now }
    ensures fields { HasFields (rows.Granted grant.now) }
{
    let at = put_event(out, at, b'G', grant.round, grant.channel, grant.entry);
    let at = put_four(out, at, grant.id, grant.i, grant.k, grant.sid);
    let at = put_four(out, at, grant.iuc, grant.start, grant.slots, grant.credit);
    put_byte(out, at, b'\n')
}

/// Puts an M line.
fn put_missed(out: &mut [u8], at: usize, missed: &MissedOccurrence) -> usize
    requires { at + LINE_BYTES ≤ length out.old }
    ensures end { result ≤ length out.old }
    ensures line { take result out.new ≡ take at out.old ++ spec.missed_text missed.now }
    ensures fields { HasFields (rows.Missed missed.now) }
{
    let at = put_event(out, at, b'M', missed.round, missed.channel, missed.entry);
    let at = put_two(out, at, missed.id, missed.i);
    let at = put_number(out, at, missed.k);
    put_byte(out, at, b'\n')
}

/// Puts an F line.
fn put_final(out: &mut [u8], at: usize, state: &FinalState) -> usize
    requires { at + LINE_BYTES ≤ length out.old }
    ensures end { result ≤ length out.old }
    ensures line { take result out.new ≡ take at out.old ++ spec.final_text state.now }
    ensures fields { HasFields (rows.Final state.now) }
{
    let at = put_byte(out, at, b'F');
    let at = put_two(out, at, state.flow, state.cluster);
    let at = put_number(out, at, state.outstanding);
    let at = put_units(out, at, state.units);
    put_byte(out, at, b'\n')
}

/// Puts an A line.
fn put_activity(out: &mut [u8], at: usize, activity: &FinalActivity) -> usize
    requires { at + LINE_BYTES ≤ length out.old }
    ensures end { result ≤ length out.old }
    ensures line { take result out.new ≡ take at out.old ++ spec.activity_text activity.now }
    ensures fields { HasFields (rows.Activity activity.now) }
{
    let at = put_byte(out, at, b'A');
    let at = put_two(out, at, activity.flow, activity.active);
    put_byte(out, at, b'\n')
}

/// Puts the U line.
fn put_counts(out: &mut [u8], at: usize, counts: &TraceCounts) -> usize
    requires { at + LINE_BYTES ≤ length out.old }
    ensures end { result ≤ length out.old }
    ensures line { take result out.new ≡ take at out.old ++ spec.counts_text counts.now }
    ensures fields { HasFields (rows.Counts counts.now) }
{
    let at = put_byte(out, at, b'U');
    let at = put_two(out, at, counts.unknown, counts.not_requestable);
    let at = put_number(out, at, counts.late);
    put_byte(out, at, b'\n')
}

/// Puts what G and M lines begin with: the letter, the round and the channel, and the entry.
#[inline(always)]
fn put_event(
    out: &mut [u8],
    at: usize,
    letter: u8,
    round: u64,
    channel: u64,
    entry: EntryWord,
) -> usize
    requires { at + 51 ≤ length out.old }
    ensures size { result ≤ at + 51 }
    ensures bytes { take result out.new ≡
        take at out.old ++ letter ∷ (spec.numbers (round ∷ channel ∷ []) ++ (44 ∷ spec.word_text entry)) }
    ensures fit { Fit (round ∷ channel ∷ []) }
{
    let at = put_byte(out, at, letter);
    let at = put_two(out, at, round, channel);
    put_word(out, at, entry)
}

/// Puts the units of a bucket, a dash where there is none.
fn put_units(out: &mut [u8], at: usize, units: Option<u64>) -> usize
    requires { at + FIELD_BYTES ≤ length out.old }
    ensures size { result ≤ at + FIELD_BYTES }
    ensures bytes { take result out.new ≡ take at out.old ++ 44 ∷ spec.units_text units }
    ensures fit { IfSome units (λ units. units < 2 ^ 64) }
{
    match units {
        Some(units) => put_number(out, at, units),
        None => put_bytes(out, at, *b",-"),
    }
}

/// Puts a comma and the word of an entry: eight bytes whatever the word, of which the last may not belong to it.
#[inline(always)]
fn put_word(out: &mut [u8], at: usize, entry: EntryWord) -> usize
    requires { at + 8 ≤ length out.old }
    ensures size { result ≤ at + 8 }
    ensures bytes { take result out.new ≡ take at out.old ++ 44 ∷ spec.word_text entry }
{
    let (bytes, count) = word_of(entry);
    put_first(out, at, bytes, count)
}

/// Eight bytes that begin with a comma and the word of an entry, and how many bytes these two are.
#[inline(always)]
fn word_of(entry: EntryWord) -> ([u8; 8], usize)
    ensures bytes { take result.1 result.0 ≡ 44 ∷ spec.word_text entry }
    ensures few { result.1 ≤ 8 }
{
    match entry {
        EntryWord::Unsolicited => (*b",ugs    ", 4),
        EntryWord::Activity => (*b",ad     ", 3),
        EntryWord::RealTimePoll => (*b",rtp    ", 4),
        EntryWord::NonRealTimePoll => (*b",nrtp   ", 5),
        EntryWord::Station => (*b",station", 8),
        EntryWord::Requested => (*b",req    ", 4),
    }
}

/// Puts two numbers, each behind a comma.
#[inline(always)]
fn put_two(out: &mut [u8], at: usize, first: u64, second: u64) -> usize
    requires { at + 42 ≤ length out.old }
    ensures size { result ≤ at + 42 }
    ensures bytes { take result out.new ≡ take at out.old ++ spec.numbers (first ∷ second ∷ []) }
    ensures fit { Fit (first ∷ second ∷ []) }
{
    let at = put_number(out, at, first);
    put_number(out, at, second)
}

/// Puts four numbers, each behind a comma.
#[inline(always)]
fn put_four(out: &mut [u8], at: usize, first: u64, second: u64, third: u64, fourth: u64) -> usize
    requires { at + 84 ≤ length out.old }
    ensures size { result ≤ at + 84 }
    ensures bytes { take result out.new ≡ take at out.old ++ spec.numbers (first ∷ second ∷ third ∷ fourth ∷ []) }
    ensures fit { Fit (first ∷ second ∷ third ∷ fourth ∷ []) }
{
    let at = put_two(out, at, first, second);
    put_two(out, at, third, fourth)
}

/// Puts a comma and a number in decimal. Most numbers of a line have up to three digits, and are put without a call.
#[inline(always)]
fn put_number(out: &mut [u8], at: usize, number: u64) -> usize
    requires { at + FIELD_BYTES ≤ length out.old }
    ensures size { result ≤ at + FIELD_BYTES }
    ensures bytes { take result out.new ≡ take at out.old ++ 44 ∷ decimal number }
    ensures fit { number < 2 ^ 64 }
{
    if number < 1_000 {
        put_short(out, at, number)
    } else {
        put_long(out, at, number)
    }
}

/// Puts a comma and a number of more than three digits. With up to six it is put three at a time. It is a call, since a line of
/// ten such numbers would be too large to be inlined.
#[inline(never)]
fn put_long(out: &mut [u8], at: usize, number: u64) -> usize
    requires long { 1000 ≤ number }
    requires room { at + FIELD_BYTES ≤ length out.old }
    ensures size { result ≤ at + FIELD_BYTES }
    ensures bytes { take result out.new ≡ take at out.old ++ 44 ∷ decimal number }
{
    if number >= 1_000_000 {
        return put_longer(out, at, number);
    }
    let end = put_short(out, at, number / 1_000);
    put_three(out, end, number % 1_000)
}

/// Puts a comma and a number of any size.
#[cold]
#[inline(never)]
fn put_longer(out: &mut [u8], at: usize, number: u64) -> usize
    requires { at + FIELD_BYTES ≤ length out.old }
    ensures size { result ≤ at + FIELD_BYTES }
    ensures bytes { take result out.new ≡ take at out.old ++ 44 ∷ decimal number }
{
    let mut digits = [0; MAX_DIGITS];
    let start = itoa::write_digits(number, &mut digits, MAX_DIGITS);
    let end = put_byte(out, at, b',');
    put_some(out, end, &digits[start..])
}
