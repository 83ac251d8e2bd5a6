use us_lint::EmptyMaps;

/// Small MAPs, in which both reserves have room: others by each number.
fn maps_of(number: u32) -> EmptyMaps {
    let len = number % 8 + 1;
    let maintenance = (number / 8 % 8).min(len);
    EmptyMaps {
        len,
        maintenance,
        maintenance_every: number / 64 % 3 + 1,
        contention: (number / 192 % 8).min(len - maintenance),
    }
}

/// Whether a grant of so many minislots has room from one of these on: each is tried.
fn has_room(maps: &EmptyMaps, slots: u32, first: u32, last: u32) -> bool {
    for minislot in first..=last {
        if has_room_from(maps, slots, minislot) {
            return true;
        }
    }
    false
}

/// Whether it has room from this one on.
fn has_room_from(maps: &EmptyMaps, slots: u32, minislot: u32) -> bool {
    let offset = minislot % maps.len;
    let starts_with_reserve = (minislot / maps.len).is_multiple_of(maps.maintenance_every);
    let behind = if starts_with_reserve {
        maps.maintenance
    } else {
        0
    };
    (offset >= behind) & (offset.saturating_add(slots).saturating_add(maps.contention) <= maps.len)
}

/// How many of so many windows are told wrong, which look as if they were drawn.
fn wrong(count: u32) -> u32 {
    let mut wrong = 0_u32;
    for number in 0..count {
        let maps = maps_of(number);
        let drawn = number.wrapping_mul(2_654_435_761);
        let (slots, first) = ((drawn >> 29) + 1, (drawn >> 20) % 41);
        let last = first + (drawn >> 10) % 41;
        if maps.have_room(slots, first, last) != has_room(&maps, slots, first, last) {
            wrong = wrong.saturating_add(1);
        }
    }
    wrong
}

#[test]
fn rooms(rt: HostRuntime) {
    assert_eq!(rt; wrong(20_000), 0);
}
