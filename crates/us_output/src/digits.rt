ghost use Rattle.std.specs.Prelude.{◌≡◌, ◌+◌, ◌/◌, ◌%◌, ◌<◌, ◌≤◌, [], ◌∷◌, ◌++◌, length, take};
ghost use Rattle.std.specs.Fmt.{decimal};

use crate::puts::{put_bytes, put_first};

/// Eight bytes for each of some numbers below 1,000: a comma and its digits, with dots behind them up to four bytes; how many
/// bytes the comma and the digits are; and three digits, of which the first may be 0. The numbers are told by their digits but
/// the last.
macro_rules! fields {
    ($($zeros:literal $dots:literal $bytes:literal: $($first:literal)*;)*) => {
        concat!($($(
            ",", $first, "0", $dots, $bytes, $zeros, $first, "0",
            ",", $first, "1", $dots, $bytes, $zeros, $first, "1",
            ",", $first, "2", $dots, $bytes, $zeros, $first, "2",
            ",", $first, "3", $dots, $bytes, $zeros, $first, "3",
            ",", $first, "4", $dots, $bytes, $zeros, $first, "4",
            ",", $first, "5", $dots, $bytes, $zeros, $first, "5",
            ",", $first, "6", $dots, $bytes, $zeros, $first, "6",
            ",", $first, "7", $dots, $bytes, $zeros, $first, "7",
            ",", $first, "8", $dots, $bytes, $zeros, $first, "8",
            ",", $first, "9", $dots, $bytes, $zeros, $first, "9",
        )*)*)
    };
}

/// Those of all numbers below 1,000.
static FIELDS: &str = fields!(
    "00" ".." "\x02": "";
    "0" "." "\x03": "1" "2" "3" "4" "5" "6" "7" "8" "9";
    "" "" "\x04":
        "10" "11" "12" "13" "14" "15" "16" "17" "18" "19" "20" "21" "22" "23" "24" "25" "26" "27" "28" "29"
        "30" "31" "32" "33" "34" "35" "36" "37" "38" "39" "40" "41" "42" "43" "44" "45" "46" "47" "48" "49"
        "50" "51" "52" "53" "54" "55" "56" "57" "58" "59" "60" "61" "62" "63" "64" "65" "66" "67" "68" "69"
        "70" "71" "72" "73" "74" "75" "76" "77" "78" "79" "80" "81" "82" "83" "84" "85" "86" "87" "88" "89"
        "90" "91" "92" "93" "94" "95" "96" "97" "98" "99";
);

/// Puts a comma and a number below 1,000 behind what stands before `at`: four bytes whatever the number, of which the last may
/// not belong to it. So nothing is asked of the number.
#[inline(always)]
pub(crate) fn put_short(out: &mut [u8], at: usize, number: u64) -> usize
    requires short { number < 1000 }
    requires room { at + 4 ≤ length out.old }
    ensures size { result ≤ at + 4 }
    ensures bytes { take result out.new ≡ take at out.old ++ 44 ∷ decimal number }
{
    let (bytes, count) = field_of(number);
    put_first(out, at, bytes, count)
}

/// Puts three digits of a number below 1,000, with a 0 for each that it lacks.
#[inline(always)]
pub(crate) fn put_three(out: &mut [u8], at: usize, number: u64) -> usize
    requires short { number < 1000 }
    requires room { at + 3 ≤ length out.old }
    ensures end { result ≡ at + 3 }
    ensures bytes { take result out.new ≡
        take at out.old ++ (48 + number / 100) ∷ (48 + number % 100 / 10) ∷ (48 + number % 10) ∷ [] }
{
    let bytes = FIELDS.as_bytes();
    let row = number as usize * 8 + 5;
    put_bytes(out, at, [bytes[row], bytes[row + 1], bytes[row + 2]])
}

/// Four bytes that begin with a comma and the digits of a number below 1,000, and how many bytes these are.
#[inline(always)]
fn field_of(number: u64) -> ([u8; 4], usize)
    requires { number < 1000 }
    ensures bytes { take result.1 result.0 ≡ 44 ∷ decimal number }
    ensures few { result.1 ≤ 4 }
{
    let bytes = FIELDS.as_bytes();
    let row = number as usize * 8;
    let field = [bytes[row], bytes[row + 1], bytes[row + 2], bytes[row + 3]];
    (field, usize::from(bytes[row + 4]))
}
