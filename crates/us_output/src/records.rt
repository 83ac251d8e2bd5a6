ghost use Rattle.std.specs.Prelude.{◌≡◌, ◌+◌, ◌*◌, ◌^◌, ◌<◌, ◌≤◌, ℕ, List, ◌++◌, length, take, flat_map, OnOk};
ghost use Rattle.std.specs.List.{AllByRecursion};
ghost use Rattle.std.specs.Int.{to_be_bytes, w16, w32};
ghost use Rattle.us_codec.specs.Elements.{word_of};
ghost use Rattle.us_codec.specs.Bodies.{front, max_elements, spelling};
ghost use Rattle.us_codec.specs.MapsFiles.{record_bytes};
ghost use Rattle.us_flows.specs.Tables.{max_run_ticks};
ghost use Rattle.us_channel.specs.Maps.{max_pendings, pending_element, run_element};
ghost use Rattle.us_holes.specs.Boards.{max_assignments};
ghost use Rattle.us_holes.specs.Runs.{runs_of};
ghost use Rattle.us_output.specs.Ahead.{words_of};
ghost use Rattle.us_output.specs.Files.{records};
ghost use Rattle.us_output.specs.Leftovers.{AreDealt, IsBuiltFor, told};
ghost use Rattle.us_output.specs.Outputs as spec;
ghost use Rattle.us_output.specs.Outputs.{AreWithinLimits, out_of};

use crate::buffers::TextBuffers;
use crate::channels_with_text::ChannelWithText;
use crate::dealing::Dealt;
use crate::pendings::PendingSid;
use crate::puts::{put_bytes, put_some};
use us_channel::{gap_of, head_of, pending_of};
use us_codec::{
    ELEMENT_BYTES, Element, HEAD_BYTES, Head, MAX_BODY_BYTES, front_bytes, put_element,
};
use us_flows::{Channel, Config};
use us_holes::{Board, Run};
use us_slots::NoMemory;

/// The bytes of a round and of a length, which stand before a body.
const MARK_BYTES: usize = 6;

/// The bytes in which a record is put together: the longest fits.
pub(crate) const RECORD_BYTES: usize = MARK_BYTES + MAX_BODY_BYTES;

/// Adds the records of a round: one for the MAP of each channel, in table order, with the SIDs that are pending there. The
/// one fault is want of memory.
pub fn push_records(
    text: &mut Vec<u8>,
    buffers: &mut TextBuffers,
    config: &Config,
    round: u32,
    channels: &[ChannelWithText],
    pendings: &[PendingSid],
) -> Result<(), NoMemory>
    requires built { AllByRecursion (IsBuiltFor config.now) channels.now }
    requires time { (round + 1) * config.now.round_ticks ≤ max_run_ticks }
    ensures records { OnOk result (text.new.items ≡
        text.old.items ++ records (out_of config.now (told round channels.now pendings.now))) }
    ensures limits { OnOk result (AreWithinLimits config.now (told round channels.now pendings.now)) }
{
    let TextBuffers { dealt, record, .. } = buffers;
    dealt.deal(pendings)?;
    for part in channels {
        push_record(text, record, dealt, config, round, part)?;
    }
    Ok(())
}

/// Adds the record of a channel's MAP, with the SIDs that were dealt to it.
fn push_record(
    text: &mut Vec<u8>,
    out: &mut [u8; RECORD_BYTES],
    dealt: &Dealt,
    config: &Config,
    round: u32,
    part: &ChannelWithText,
) -> Result<(), NoMemory>
    requires built { IsBuiltFor config.now part.now }
    requires time { (round + 1) * config.now.round_ticks ≤ max_run_ticks }
    ensures record { OnOk result ((pendings : List (ℕ × ℕ)) → AreDealt pendings dealt.now.lists.items →
        text.new.items ≡ text.old.items ++ record_bytes
        (record { round = round; body = spelling (spec.built_map config.now round pendings part.now) })) }
    ensures limits { OnOk result ((pendings : List (ℕ × ℕ)) → AreDealt pendings dealt.now.lists.items →
        spec.IsWithinLimits config.now round pendings part.now) }
{
    let channel = part.channel_round().channel();
    let sids = dealt.on(channel.id);
    let len = part.channel_round().board().len() as u16;
    let head = head_of(config, channel, round);
    let end = put_granted(out, round, &head, part, 1 + sids.len());
    let end = put_next(out, end, Element::null_at(len));
    let end = put_pendings(out, end, sids, len);
    push_first(text, out, end)?;
    Ok(())
}

/// Puts what stands of a record before its null element, where so many elements come from there on: its opening, and the
/// elements of the runs. Where they were written ahead, these are copied.
fn put_granted(
    out: &mut [u8; RECORD_BYTES],
    round: u32,
    head: &Head,
    part: &ChannelWithText,
    more: usize,
) -> usize
    requires more { more ≤ 1 + max_pendings }
    ensures room { result + ELEMENT_BYTES * more ≤ RECORD_BYTES }
    ensures few { length (runs_of part.now.board.cells) ≤ 2 * max_assignments + 1 }
    ensures bytes { take result out.new ≡
        (to_be_bytes w32 round ++ to_be_bytes w16 (16 + 4 * (length (runs_of part.now.board.cells) + more))
        ++ front head.now (length (runs_of part.now.board.cells) + more))
        ++ words_of part.now.channel (runs_of part.now.board.cells) }
{
    let channel = part.channel_round();
    let end = put_opening(out, round, head, channel.board().run_count() + more);
    match part.ahead(round) {
        Some(ahead) => put_some(out, end, ahead.elements()),
        None => put_runs(out, end, channel.channel(), channel.board()),
    }
}

/// Adds the bytes before `end`.
fn push_first(text: &mut Vec<u8>, out: &[u8; RECORD_BYTES], end: usize) -> Result<(), NoMemory>
    requires { end ≤ RECORD_BYTES }
    ensures { OnOk result (text.new.items ≡ text.old.items ++ take end out.now) }
{
    text.extend_from_slice(&out[..end])?;
    Ok(())
}

/// Puts what stands of a record before so many elements: the round, the length of the body, and its front.
fn put_opening(out: &mut [u8; RECORD_BYTES], round: u32, head: &Head, count: usize) -> usize
    requires { count ≤ max_elements }
    ensures end { result ≡ MARK_BYTES + HEAD_BYTES }
    ensures bytes { take result out.new ≡
        to_be_bytes w32 round ++ to_be_bytes w16 (16 + 4 * count) ++ front head.now count }
{
    let length = (HEAD_BYTES + ELEMENT_BYTES * count) as u16;
    let end = put_bytes(out, 0, round.to_be_bytes());
    let end = put_bytes(out, end, length.to_be_bytes());
    put_bytes(out, end, front_bytes(head, count as u8))
}

/// Puts the element of each run of a board behind what stands before `at`.
pub(crate) fn put_runs(
    out: &mut [u8; RECORD_BYTES],
    at: usize,
    channel: &Channel,
    board: &Board,
) -> usize
    requires room { at + ELEMENT_BYTES * length (runs_of board.now.cells) ≤ RECORD_BYTES }
    ensures end { result ≡ at + ELEMENT_BYTES * length (runs_of board.now.cells) }
    ensures bytes { take result out.new ≡ take at out.old ++ words_of channel.now (runs_of board.now.cells) }
{
    let mut end = at;
    let mut runs = board.walk();
    while let Some(run) = runs.next() {
        end = put_run(out, end, channel, run);
    }
    end
}

/// Puts the element of a run behind what stands before `at`. Those of assignments are put by themselves: so each is moved as
/// the board keeps it, and not put together of what it is first taken apart to.
#[inline(always)]
fn put_run(out: &mut [u8; RECORD_BYTES], at: usize, channel: &Channel, run: Run) -> usize
    requires room { at + ELEMENT_BYTES ≤ RECORD_BYTES }
    requires start { run.start < 2 ^ 14 }
    ensures end { result ≡ at + ELEMENT_BYTES }
    ensures bytes { take result out.new ≡
        take at out.old ++ to_be_bytes w32 (word_of (run_element channel.now run)) }
{
    match run.owner() {
        Some(owner) => {
            let start = run.start() as u16;
            put_next(
                out,
                at,
                Element::from_fields(owner.sid(), owner.iuc(), start),
            )
        }
        None => put_next(out, at, gap_of(channel, run)),
    }
}

/// Puts a data grant pending for each of these SIDs, at the MAP's length, behind what stands before `at`.
fn put_pendings(out: &mut [u8; RECORD_BYTES], at: usize, sids: &[u16], len: u16) -> usize
    requires room { at + ELEMENT_BYTES * length sids.now ≤ RECORD_BYTES }
    requires len { len < 2 ^ 14 }
    requires bits { AllByRecursion (λ sid. sid < 2 ^ 14) sids.now }
    ensures end { result ≡ at + ELEMENT_BYTES * length sids.now }
    ensures bytes { take result out.new ≡ take at out.old
        ++ flat_map (λ sid. to_be_bytes w32 (word_of (pending_element len sid))) sids.now }
{
    let mut end = at;
    for sid in sids {
        end = put_next(out, end, pending_of(*sid, len));
    }
    end
}

/// Puts an element behind what stands before `at`.
#[inline(always)]
fn put_next(out: &mut [u8; RECORD_BYTES], at: usize, element: Element) -> usize
    requires { at + ELEMENT_BYTES ≤ RECORD_BYTES }
    ensures end { result ≡ at + ELEMENT_BYTES }
    ensures bytes { take result out.new ≡ take at out.old ++ to_be_bytes w32 (word_of element) }
{
    put_element(out, at, element);
    at + ELEMENT_BYTES
}
