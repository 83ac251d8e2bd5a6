use super::base::{BASE_HEAD, Fields, element, same};
use crate::{Head, MapFault, Record};

/// The fields that an element of them answers.
fn fields_of(fields: Fields) -> Option<Fields> {
    let element = element(fields)?;
    Some((element.sid(), element.iuc().number(), element.offset()))
}

/// The greatest fields of an element.
const GREATEST: Fields = (0x3fff, 15, 0x3fff);

static RANGES: [Option<Fields>; 3] = [Some(GREATEST), None, None];

/// The place of the first value that is equal.
fn place_of<T: PartialEq>(value: &T, values: &[T]) -> Option<usize> {
    for (place, other) in values.iter().enumerate() {
        if *other == *value {
            return Some(place);
        }
    }
    None
}

/// Heads that differ from the last one by a field each.
static HEADS: [Head; 6] = [
    Head {
        channel: 9,
        ..BASE_HEAD
    },
    Head {
        ucd_count: 9,
        ..BASE_HEAD
    },
    Head {
        alloc_start: 9,
        ..BASE_HEAD
    },
    Head {
        ack: 9,
        ..BASE_HEAD
    },
    Head {
        backoffs: [2, 6, 3, 9],
        ..BASE_HEAD
    },
    BASE_HEAD,
];

const RECORD: Record = Record {
    round: 1,
    from: 6,
    to: 8,
};

static RECORDS: [Record; 4] = [
    Record { round: 2, ..RECORD },
    Record { from: 7, ..RECORD },
    Record { to: 9, ..RECORD },
    RECORD,
];

static FAULTS: [MapFault; 2] = [MapFault::RecordCut, MapFault::Short];

/// Values differ by each field.
#[test]
fn values(rt: HostRuntime) {
    let found = [
        fields_of(GREATEST),
        fields_of((0x4000, 1, 0)),
        fields_of((0, 1, 0x4000)),
    ];
    same(&rt, &found, &RANGES, "ranges");
    let elements = [
        element((9, 2, 3)),
        element((1, 9, 3)),
        element((1, 2, 9)),
        element((1, 2, 3)),
    ];
    let found = [
        place_of(&element((1, 2, 3)), &elements),
        place_of(&BASE_HEAD, &HEADS),
        place_of(&RECORD, &RECORDS),
        place_of(&MapFault::Short, &FAULTS),
    ];
    same(
        &rt,
        &found,
        &[Some(3), Some(5), Some(3), Some(1)],
        "equal values",
    );
}
