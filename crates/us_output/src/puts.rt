//! Bytes that are put behind what stands before a place.

ghost use Rattle.std.specs.Prelude.{◌≡◌, ◌+◌, ◌≤◌, [], ◌∷◌, ◌++◌, length, take};

/// Puts a byte.
#[inline(always)]
pub(crate) fn put_byte(out: &mut [u8], at: usize, byte: u8) -> usize
    requires { at + 1 ≤ length out.old }
    ensures end { result ≡ at + 1 }
    ensures bytes { take result out.new ≡ take at out.old ++ byte ∷ [] }
{
    out[at] = byte;
    at + 1
}

/// Puts some bytes.
pub(crate) fn put_some(out: &mut [u8], at: usize, bytes: &[u8]) -> usize
    requires { at + length bytes.now ≤ length out.old }
    ensures end { result ≡ at + length bytes.now }
    ensures bytes { take result out.new ≡ take at out.old ++ bytes.now }
{
    let end = at + bytes.len();
    out[at..end].copy_from_slice(bytes);
    end
}

/// The same of so many bytes as are known beforehand.
#[inline(always)]
pub(crate) fn put_bytes<const N: usize>(out: &mut [u8], at: usize, bytes: [u8; N]) -> usize
    requires { at + N ≤ length out.old }
    ensures end { result ≡ at + N }
    ensures bytes { take result out.new ≡ take at out.old ++ bytes.entry }
{
    let end = at + N;
    put_whole(&mut out[at..end], bytes);
    end
}

/// The same, where only the first of them are wanted, so many: what stands behind these may be any bytes.
#[inline(always)]
pub(crate) fn put_first<const N: usize>(
    out: &mut [u8],
    at: usize,
    bytes: [u8; N],
    count: usize,
) -> usize
    requires room { at + N ≤ length out.old }
    requires few { count ≤ N }
    ensures end { result ≡ at + count }
    ensures bytes { take result out.new ≡ take at out.old ++ take count bytes.entry }
{
    put_bytes(out, at, bytes);
    at + count
}

/// Puts some bytes where as many stand, as one: so they are stored at once, where a copy of a slice would first ask whether
/// the two overlap.
#[inline(always)]
fn put_whole<const N: usize>(place: &mut [u8], bytes: [u8; N])
    requires { length place.old ≡ N }
    ensures { place.new ≡ bytes.entry }
{
    let Some(whole) = place.as_mut_array() else {
        unreachable!()
    };
    *whole = bytes;
}
