// The sum of two squares, in two words of 54 digits.
ghost use Rattle.std.specs.Prelude.{◌≡◌, ◌+◌, ◌*◌, ◌/◌, ◌^◌, ◌≤◌, ◌<◌};
ghost use Rattle.root.specs.Sums.{IsSum};

use crate::whole::HALF;

// 2^54: what the upper word counts.
const WORD: u64 = 18014398509481984;
// 2^52: a quarter of that.
const QUARTER: u64 = 4503599627370496;

// hi * 2^54 + lo, where lo may be more than a word.
#[derive(Clone, Copy)]
pub struct Wide {
    pub hi: u64,
    pub lo: u64,
}

// hi * 2^54 + lo is the whole part of the sum over 4^high, and hi has 53 or 54 digits.
#[derive(Clone, Copy)]
pub struct Summed {
    pub hi: u64,
    pub lo: u64,
    pub high: u64,
}

// The whole part of (2 * a)^2 + (2 * b / 2^d)^2, or of a quarter of it, so that there are 107 or 108 digits.
pub fn sum(a: u64, b: u64, d: u64) -> Summed
    requires { (2 ^ 52 ≤ a) × (a < 2 ^ 53) × (b < 2 ^ 53) × (d ≤ 26) }
    ensures { IsSum a b d result.hi result.lo result.high }
{
    let p = square(2 * a);
    let s = square(2 * b);
    let q = quartered(s.hi, s.lo, d);
    let l = p.lo + q.lo;
    let hi = p.hi + q.hi + l / WORD;
    let lo = l % WORD;
    if hi < WORD {
        return Summed { hi, lo, high: 0 };
    }
    Summed {
        hi: hi / 4,
        lo: (hi % 4) * QUARTER + lo / 4,
        high: 1,
    }
}

// By halves of 27 digits.
fn square(a: u64) -> Wide
    requires { a < 2 ^ 54 }
    ensures { (result.hi * 2 ^ 54 + result.lo ≡ a * a) × (result.lo < 2 ^ 55) }
{
    let h = a / HALF;
    let l = a % HALF;
    let m = 2 * (h * l);
    Wide {
        hi: h * h + m / HALF,
        lo: l * l + (m % HALF) * HALF,
    }
}

// The whole part of a wide number over 4^d.
fn quartered(hi: u64, lo: u64, d: u64) -> Wide
    requires { (hi < 2 ^ 54) × (lo < 2 ^ 55) × (d ≤ 26) }
    ensures { (result.hi * 2 ^ 54 + result.lo ≡ (hi * 2 ^ 54 + lo) / 2 ^ (2 * d)) × (result.lo < 2 ^ 56) }
{
    let k = 2 * d;
    let top = hi >> k;
    Wide {
        hi: top,
        lo: ((hi - (top << k)) << (54 - k)) + (lo >> k),
    }
}
