use super::base::{BASE, bytes_of, is_written_again, same};
use crate::MapFault;
use std::alloc::Global;

fn sid(word: u32) -> u32 {
    word >> 18
}

fn iuc(word: u32) -> u32 {
    (word >> 14) & 0xf
}

fn offset(word: u32) -> u32 {
    word & 0x3fff
}

/// The first element of IUC 7.
fn end_of(elements: &[u32]) -> Option<u32> {
    for word in elements {
        if iuc(*word) == 7 {
            return Some(*word);
        }
    }
    None
}

/// Whether an offset up to that element is not above the one before it.
fn falls_before_end(elements: &[u32]) -> bool {
    let mut last = None;
    for word in elements {
        match last {
            Some(last) if last >= offset(*word) => return true,
            _ => (),
        }
        if iuc(*word) == 7 {
            return false;
        }
        last = Some(offset(*word));
    }
    false
}

/// Whether an element behind it has IUC 7 or another offset.
fn strays_behind_end(elements: &[u32]) -> bool {
    let mut end = None;
    for word in elements {
        match end {
            Some(end) if iuc(*word) == 7 || offset(*word) != end => return true,
            None if iuc(*word) == 7 => end = Some(offset(*word)),
            _ => (),
        }
    }
    false
}

/// The first fault of the elements of a body, each looked for in the whole list.
fn check_list(elements: &[u32]) -> Result<(), MapFault> {
    match end_of(elements) {
        Some(end) if sid(end) == 0 => (),
        _ => return Err(MapFault::NoNull),
    }
    if falls_before_end(elements) {
        return Err(MapFault::Order);
    }
    if strays_behind_end(elements) {
        return Err(MapFault::AfterNull);
    }
    Ok(())
}

/// Whether a body in words is lawful, or its first fault.
fn plain_answer(words: &[u32]) -> Result<bool, MapFault> {
    let [counts, _, _, backoffs, elements @ ..] = words else {
        return Err(MapFault::Short);
    };
    let count = ((counts >> 8) & 0xff) as usize;
    if elements.len() != count {
        return Err(MapFault::LengthMismatch);
    }
    if counts & 0xff != 0 {
        return Err(MapFault::Reserved);
    }
    if count > 240 {
        return Err(MapFault::TooManyElements);
    }
    check_list(elements)?;
    if backoffs & 0xf0f0_f0f0 != 0 {
        return Err(MapFault::Backoff);
    }
    match elements.first() {
        Some(first) if offset(*first) != 0 => Err(MapFault::FirstOffset),
        _ => Ok(true),
    }
}

/// The next number of a fixed row of numbers that look random.
fn next(seed: u32) -> u32 {
    seed.wrapping_mul(1_664_525).wrapping_add(1_013_904_223)
}

/// The base body with a pending behind its Null, and up to three bits of it turned.
fn damaged(seed: &mut u32) -> [u32; 8] {
    let [counts, start, ack, backoffs, one, two, null] = BASE;
    let mut words = [
        counts + 0x100,
        start,
        ack,
        backoffs,
        one,
        two,
        null,
        0x0006_80a0,
    ];
    for _ in 0..3u32 {
        *seed = next(*seed);
        let place = (*seed >> 24) as usize % words.len();
        *seed = next(*seed);
        let bit = (*seed >> 24) % 32;
        // as often as not nothing is damaged
        if *seed & 0x0080_0000 == 0 {
            words[place] ^= 1 << bit;
        }
    }
    words
}

/// Whether a body in words is read and written again, or its fault.
fn answer(alloc: Global, words: &[u32]) -> Result<bool, MapFault> {
    let bytes = bytes_of(alloc, words)?;
    is_written_again(alloc, &bytes)
}

/// The place of an answer among those that are counted: lawful bodies, and those of three faults.
fn kind_of(answer: Result<bool, MapFault>) -> usize {
    match answer {
        Ok(_) => 0,
        Err(MapFault::Order) => 1,
        Err(MapFault::AfterNull) => 2,
        Err(MapFault::FirstOffset) => 3,
        Err(_) => 4,
    }
}

/// Each byte of the base body, set to 0 and to 255.
#[test]
fn every_byte(rt: HostRuntime) {
    for place in 0..28usize {
        let shift = 24 - 8 * (place % 4);
        for byte in [0u32, 0xff] {
            let mut words = BASE;
            words[place / 4] = words[place / 4] & !(0xff << shift) | byte << shift;
            let found = answer(rt.alloc(), &words);
            same(
                &rt,
                &(words, found),
                &(words, plain_answer(&words)),
                "a byte",
            );
        }
    }
}

#[test]
fn plain_program_agrees(rt: HostRuntime) {
    let mut seed = 1;
    let mut counts = [0u32; 4];
    for _ in 0..20_000u32 {
        let words = damaged(&mut seed);
        let plain = plain_answer(&words);
        let found = answer(rt.alloc(), &words);
        same(&rt, &(words, found), &(words, plain), "a body");
        if let Some(count) = counts.get_mut(kind_of(plain)) {
            *count = count.saturating_add(1);
        }
    }
    let [lawful, order, after, first] = counts;
    let least = lawful.min(order).min(after).min(first);
    same(&rt, &(counts, least > 100), &(counts, true), "counts");
}
