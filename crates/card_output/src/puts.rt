// Bytes put one after the other into a lent list: behind what it holds already, and the rest of it stays as it was.
ghost use Rattle.std.specs.Prelude.{[], ◌∷◌, ◌+◌, ◌≤◌, ◌<◌, length};
ghost use Rattle.scope.specs.Saving.{low_bytes};
ghost use Rattle.card_output.specs.Puts.{Put};

// One byte at a place, and the place behind it.
pub(crate) fn put_byte(out: &mut [u8], at: usize, byte: u8) -> usize
    requires { at < length out.old }
    ensures { Put (byte ∷ []) at out.old result out.new }
{
    out[at] = byte;
    at + 1
}

// One after the other: a copy of them all at once would be a call of the C library's.
pub(crate) fn put_bytes(out: &mut [u8], at: usize, bytes: &[u8]) -> usize
    requires { at + length bytes.now ≤ length out.old }
    ensures { Put bytes.now at out.old result out.new }
{
    let mut next = at;
    for byte in bytes {
        next = put_byte(out, next, *byte);
    }
    next
}

// ---- words, the lowest byte first

// The eight bytes of a word.
pub(crate) fn put_word(out: &mut [u8], at: usize, n: u64) -> usize
    requires { at + 8 ≤ length out.old }
    ensures { Put (low_bytes 8 n) at out.old result out.new }
{
    let second = put_short(out, at, n % 65536);
    let third = put_short(out, second, n / 65536 % 65536);
    let fourth = put_short(out, third, n / 4294967296 % 65536);
    put_short(out, fourth, n / 281474976710656)
}

// The two bytes of a word of two.
pub(crate) fn put_short(out: &mut [u8], at: usize, n: u64) -> usize
    requires { (n < 65536) × (at + 2 ≤ length out.old) }
    ensures { Put (low_bytes 2 n) at out.old result out.new }
{
    let next = put_byte(out, at, (n % 256) as u8);
    put_byte(out, next, (n / 256) as u8)
}
