// Numbers from bytes, the lowest first: words of eight bytes and of two.
ghost use Rattle.std.specs.Prelude.{◌≡◌, ◌+◌, ◌*◌, ◌<◌, ◌≤◌, ◌^◌, get_or, drop};
ghost use Rattle.scope.specs.CardFile.{word, short_word};

// The word at a place, lowest byte first. What lies past the end counts as 0.
pub(crate) fn word_at(bytes: &[u8], at: usize) -> u64
    ensures { result ≡ word bytes.now at }
{
    half_at(bytes, at, 0) + half_at(bytes, at, 4) * 4294967296
}

// Four bytes, from the k-th after a place.
fn half_at(bytes: &[u8], at: usize, k: usize) -> u64
    requires { k < 8 }
    ensures { let b = drop at bytes.now in
        (result ≡ get_or b k 0 + 256 * (get_or b (k + 1) 0 + 256 * (get_or b (k + 2) 0 + 256 * get_or b (k + 3) 0))) × (result < 2 ^ 32) }
{
    byte_at(bytes, at, k)
        + byte_at(bytes, at, k + 1) * 256
        + byte_at(bytes, at, k + 2) * 65536
        + byte_at(bytes, at, k + 3) * 16777216
}

// The word of two bytes from the k-th after a place.
pub(crate) fn short_at(bytes: &[u8], at: usize, k: usize) -> u16
    requires { k ≤ 24 }
    ensures { result ≡ short_word (drop at bytes.now) k }
{
    (byte_at(bytes, at, k) + byte_at(bytes, at, k + 1) * 256) as u16
}

// The k-th byte after a place, 0 past the end.
pub(crate) fn byte_at(bytes: &[u8], at: usize, k: usize) -> u64
    ensures { (result ≡ get_or (drop at bytes.now) k 0) × (result < 256) }
{
    if at < bytes.len() && k < bytes.len() - at {
        u64::from(bytes[at + k])
    } else {
        0
    }
}
