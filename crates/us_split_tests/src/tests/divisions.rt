use super::base::same;
use us_split::divide;

/// The same division, as a plain program: the greatest parts in proportion, then a byte to each channel in turn.
fn divided_plainly(bytes: u64, weights: [u32; 3]) -> [u32; 3] {
    let bytes = u128::from(bytes);
    let mut total = 0_u128;
    for weight in weights {
        total = total.saturating_add(u128::from(weight));
    }
    let mut left = total.min(bytes);
    let mut shares = [0_u32; 3];
    for i in 0..3 {
        for _ in 0..weights[i] {
            let next = shares[i].saturating_add(1);
            if u128::from(next).saturating_mul(total)
                <= bytes.saturating_mul(u128::from(weights[i]))
            {
                shares[i] = next;
                left = left.saturating_sub(1);
            }
        }
    }
    for i in 0..3 {
        if left > 0 && shares[i] < weights[i] {
            shares[i] += 1;
            left -= 1;
        }
    }
    shares
}

/// Whether these shares are the plain program's.
fn agrees(bytes: u64, a: u32, b: u32, c: u32) -> bool {
    let weights = [a.min(98_304), b.min(98_304), c.min(98_304)];
    let mut shares = [7; 3];
    divide(bytes, &weights, &mut shares);
    shares == divided_plainly(bytes, weights)
}

/// How many of all divisions of few bytes by small weights agree.
fn small_ones() -> u32 {
    let mut agreed = 0_u32;
    for number in 0..1750 {
        if agrees(
            u64::from(number / 125),
            number / 25 % 5,
            number / 5 % 5,
            number % 5,
        ) {
            agreed = agreed.saturating_add(1);
        }
    }
    agreed
}

/// Whether some divisions of many bytes, or by great weights, agree.
fn great_ones() -> bool {
    agrees(501, 300, 600, 100)
        && agrees(1000, 300, 600, 100)
        && agrees(2000, 300, 600, 100)
        && agrees(98_304, 98_304, 1, 98_304)
        && agrees((1 << 62) - 1, 98_304, 98_304, 98_303)
}

#[test]
fn divisions_beside_a_plain_program(rt: HostRuntime) {
    let all = small_ones() == 1750 && great_ones();
    same(&rt, if all { "all" } else { "some" }, "all", "agree");
}
