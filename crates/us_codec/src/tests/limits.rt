ghost use Rattle.std.specs.Prelude.{◌≤◌};

use super::base::{BASE_HEAD, count_of, element, is_written_again, same};
use crate::{Element, MAX_BODY_BYTES, MAX_LEN, Map, MapFault, decode, encode_into};
use std::alloc::{AllocError, Global};

/// As many long data grants: a minislot each from minislot 0 on, or all of them pending at this length.
fn grants(alloc: Global, count: u16, pending: Option<u16>) -> Result<Vec<Element>, AllocError> {
    let mut all = Vec::new(alloc);
    for number in 0..count {
        let fields = match pending {
            Some(len) => (number, 10, len),
            None => (1, 10, number),
        };
        all.extend(element(fields))?;
    }
    Ok(all)
}

/// What as many grants and pendings answer for a MAP of this length.
fn build(alloc: Global, granted: u16, len: u16, pending: u16) -> Result<Map, MapFault>
    requires { len ≤ MAX_LEN }
{
    let elements = grants(alloc, granted, None)?;
    let pendings = grants(alloc, pending, Some(len))?;
    Map::new(alloc, BASE_HEAD, &elements, len, &pendings)
}

/// How many elements that MAP has.
pub fn count_built(alloc: Global, granted: u16, len: u16, pending: u16) -> Result<usize, MapFault>
    requires { len ≤ MAX_LEN }
{
    count_of(build(alloc, granted, len, pending))
}

/// The length of what is written of the MAP of 239 grants, and whether that is read, and written again as it is.
fn longest(alloc: Global) -> Result<(usize, bool), MapFault> {
    let map = build(alloc, 239, MAX_LEN, 0)?;
    let mut out = [0; MAX_BODY_BYTES];
    let length = encode_into(&map, &mut out);
    Ok((length, is_written_again(alloc, &out)?))
}

const TOO_MANY: Result<usize, MapFault> = Err(MapFault::TooManyElements);

#[test]
fn elements_at_the_limit(rt: HostRuntime) {
    let alloc = rt.alloc();
    let found = [
        count_built(alloc, 239, MAX_LEN, 0),
        count_built(alloc, 240, MAX_LEN, 0),
        count_built(alloc, 201, 201, 38),
        count_built(alloc, 201, 201, 39),
    ];
    same(
        &rt,
        &found,
        &[Ok(240), TOO_MANY, Ok(240), TOO_MANY],
        "built",
    );
    let mut body = [0; 980];
    body[2] = 241;
    same(&rt, &count_of(decode(alloc, &body)), &TOO_MANY, "read");
    same(&rt, &longest(alloc), &Ok((976, true)), "written");
}
