ghost use Rattle.std.specs.Prelude.{◌≡◌, ◌*◌, ◌+◌, ◌≤◌, ◌==◌, ◌<◌, None, Some, length, map, position, replicate, slice_get, slice_set, true, IfOk, IfSome};
ghost use Rattle.std.specs.Option.{option_copied};
ghost use Rattle.us_flows.specs.Lawful.{AreApart};
ghost use Rattle.us_flows.specs.Tables as tables;
ghost use Rattle.us_flows.specs.Clusters as clusters;
ghost use Rattle.us_lawful.specs.Credits as credits;
ghost use Rattle.us_reports.specs.Order.{earlier};
ghost use Rattle.us_credit_rules.specs.Repeats as spec;
ghost use Rattle.us_credit_rules.specs.Seats.{word_in};

use crate::costs::is_cost;
use crate::seats::Seat;
use std::alloc::{AllocError, Global};
use us_flows::Channel;
use us_reports::{Place, earlier};
use us_round::Grant;

/// How many keys a word has: one for each channel id of 8 bits.
const KEYS: usize = 256;

/// The bytes of a segment header (the standard's).
const HEADER_BYTES: u8 = 8;

/// Which line of a request isn't right, or isn't the only one of its cluster, channel and round.
#[derive(Drop)]
pub(crate) struct Repeats {
    /// The last round of a line, by word and channel.
    last: Vec<Option<u64>>,
    /// The place of the first line that isn't right.
    pub(crate) first: Option<Place>,
    /// Where the channel of the last line stands in the table: that of the next line is looked for there first.
    near: usize,
}

impl Repeats {
    /// Before all lines.
    pub(crate) fn new(alloc: Global, words: usize) -> Result<Repeats, AllocError>
        requires { words ≤ 65536 }
        ensures { IfOk result (λ none. (none.last.items ≡ replicate (words * 256) None) × (none.first ≡ None)) }
    {
        let last = vec![in alloc; None; words * KEYS]?;
        Ok(Repeats {
            last,
            first: None,
            near: 0,
        })
    }

    /// A line more, which names this cluster, if any. It isn't right where it names none, has another third
    /// number than 0, a SID that isn't the cluster's on the channel, no credit or another cost than its credit's, or is like
    /// one before. The third number of a place is the id that the line tells.
    #[inline(always)]
    pub(crate) fn take(&mut self, channels: &[Channel], seat: Option<&Seat>, grant: &Grant)
        requires apart { AreApart (map (λ c. c.id) channels.now) }
        requires room { IfSome seat (λ seat. seat.now.number * 256 + 256 ≤ length self.old.last.items) }
        ensures last { self.new.last.items ≡ spec.noted self.old.last.items
            (spec.key_for (word_in (option_copied seat.entry)) grant.now.channel) grant.now.round }
        ensures first { self.new.first ≡ earlier channels.now self.old.first
            (spec.wrong_place channels.now self.old.last.items grant.now (option_copied seat.entry)) }
    {
        let told = told_again(&mut self.last, key_of(seat, grant.channel), grant.round);
        self.near = place_near(channels, self.near, grant.channel);
        let right = !told && is_right(channels.get(self.near), seat, grant);
        if !right {
            self.first = first_wrong(channels, self.first, grant);
        }
    }
}

/// Whether this is the last round of a key, if there is one. Now it is.
fn told_again(last: &mut [Option<u64>], key: Option<usize>, round: u64) -> bool
    requires { IfSome key (λ key. key < length last.old) }
    ensures told { result ≡ spec.is_told last.old key round }
    ensures noted { last.new ≡ spec.noted last.old key round }
{
    match key {
        Some(key) => note(last, key, round),
        None => false,
    }
}

/// Whether this is the last round of a key. Now it is.
fn note(last: &mut [Option<u64>], key: usize, round: u64) -> bool
    requires { key < length last.old }
    ensures told { result ≡ spec.is_told last.old (Some key) round }
    ensures noted { last.new ≡ slice_set last.old key (Some round) }
{
    let told = last[key] == Some(round);
    last[key] = Some(round);
    told
}

/// The word of a cluster and a channel as one number.
fn key_of(seat: Option<&Seat>, channel: u64) -> Option<usize>
    ensures { result ≡ spec.key_for (word_in (option_copied seat.entry)) channel }
{
    let seat = seat?;
    let channel = u8::try_from(channel).ok()?;
    Some(usize::from(seat.word()) * KEYS + usize::from(channel))
}

/// The first place of a wrong line, with one wrong line more. Few lines are wrong, so it stands apart.
#[inline(never)]
fn first_wrong(channels: &[Channel], first: Option<Place>, grant: &Grant) -> Option<Place>
    ensures { result ≡ earlier channels.now first (Some (spec.line_place grant.now)) }
{
    let wrong = Place {
        round: grant.round,
        channel: grant.channel,
        third: grant.id,
    };
    earlier(channels, first, Some(wrong))
}

/// Whether a line is right for its channel and the cluster that it names, if there are such, whatever other lines
/// there are.
fn is_right(channel: Option<&Channel>, seat: Option<&Seat>, grant: &Grant) -> bool
    ensures { result ≡ spec.is_right_on (option_copied channel.entry) grant.now (option_copied seat.entry) }
{
    let Some(seat) = seat else {
        return false;
    };
    grant.k == 0
        && has_sid(seat, grant.channel, grant.sid)
        && grant.credit > 0
        && has_cost(channel, seat, grant)
}

/// Whether a cluster has this SID on this channel.
fn has_sid(seat: &Seat, channel: u64, sid: u64) -> bool
    ensures { result ≡ clusters.has_sid channel sid seat.now.cluster }
{
    for (id, own) in seat.flow().channels().iter().zip(seat.sids()) {
        if u64::from(*id) == channel && u64::from(*own) == sid {
            return true;
        }
    }
    false
}

/// Whether a line has the minislots and the IUC of a grant of its credit behind the header.
fn has_cost(channel: Option<&Channel>, seat: &Seat, grant: &Grant) -> bool
    ensures { result ≡ credits.has_cost seat.now.cluster grant.now (option_copied channel.entry) }
{
    let Some(channel) = channel else {
        return false;
    };
    let header = if seat.flow().headers() {
        HEADER_BYTES
    } else {
        0
    };
    is_cost(&channel.bursts, header, grant)
}

/// The place in the table of the channel with this id, or one behind all. It is looked for first in the place `near` and
/// the next one.
fn place_near(channels: &[Channel], near: usize, id: u64) -> usize
    requires { AreApart (map (λ c. c.id) channels.now) }
    ensures { slice_get channels.now result ≡ tables.channel_with channels.now id }
{
    if is_at(channels, near, id) {
        return near;
    }
    let next = near.wrapping_add(1);
    if is_at(channels, next, id) {
        return next;
    }
    place_of(channels, id).unwrap_or(channels.len())
}

/// Whether a channel stands at a place of the table and has this id.
fn is_at(channels: &[Channel], place: usize, id: u64) -> bool
    requires { AreApart (map (λ c. c.id) channels.now) }
    ensures { result ≡ true → slice_get channels.now place ≡ tables.channel_with channels.now id }
{
    if place >= channels.len() {
        return false;
    }
    u64::from(channels[place].id) == id
}

/// The place in the table of the channel with this id.
#[inline(never)]
fn place_of(channels: &[Channel], id: u64) -> Option<usize>
    ensures { result ≡ position (λ channel. channel.id == id) channels.now }
{
    channels
        .iter()
        .position(|channel| u64::from(channel.id) == id)
}
