// A line of the list: the pattern of a number, a space, the pattern of its root, a line end. A pattern has 16 hexadecimal digits.
ghost use Rattle.std.specs.Prelude.{◌<◌, IfSome};

pub const LINE: usize = 34;

// The digit that a byte stands for. No letter is a capital one.
fn digit(b: u8) -> Option<u64>
    ensures { IfSome result (λ d. d < 16) }
{
    match b {
        b'0'..=b'9' => Some(u64::from(b - b'0')),
        b'a'..=b'f' => Some(u64::from(b - b'a') + 10),
        _ => None,
    }
}

// The word that digits write, the highest first, if each byte is one and the word has room.
pub fn pattern_of(text: &[u8]) -> Option<u64> {
    text.iter()
        .try_fold(0u64, |n, b| n.checked_mul(16)?.checked_add(digit(*b)?))
}
