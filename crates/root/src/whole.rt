// The whole part of the root of a whole number, and what is left over.
ghost use Rattle.std.specs.Prelude.{◌+◌, ◌*◌, ◌^◌, ◌≤◌, ◌<◌};
ghost use Rattle.root.specs.Parts.{IsWholeRoot};

// 2^27: half of the 54 digits.
pub const HALF: u64 = 134217728;
// 2^32: the digits that a first estimate does not need.
const LOWER: u64 = 4294967296;

#[derive(Clone, Copy)]
pub struct WholeRoot {
    pub root: u64,
    pub left: u64,
}

// The root of hi * 2^54 + lo, which has 54 digits: first the 27 digits of hi's own root, then 27 more.
pub fn root(hi: u64, lo: u64) -> WholeRoot
    requires { (2 ^ 52 ≤ hi) × (hi < 2 ^ 54) × (lo < 2 ^ 54) }
    ensures { IsWholeRoot (hi * 2 ^ 54 + lo) result.root result.left }
{
    let w = settle(hi, estimate(hi));
    widen(hi, lo, w.root, w.left)
}

// A number near m's root: two steps bring 7 right digits to 28. How near it is decides how long settle takes, and nothing else.
fn estimate(m: u64) -> u64
    requires { (2 ^ 52 ≤ m) × (m < 2 ^ 54) }
    ensures { result < 2 ^ 31 }
{
    step(m, step(m, first(m)))
}

// Some 7 digits of the root, from m's upper digits: with z = m / 2^52, from 1 to 4, the parabola 0.5186 + 0.5260 * z - 0.0395 * z * z is root z but
// for 1 part in 199. Here z is x / 2^20 and root z is the result / 2^26.
fn first(m: u64) -> u64
    requires { (2 ^ 52 ≤ m) × (m < 2 ^ 54) }
    ensures { (2 ^ 25 ≤ result) × (result < 2 ^ 31) }
{
    let x = m / LOWER;
    34799612 + 34473 * x / 1024 - 2591 * (x * x) / 1073741824
}

// Newton's step towards the root of m, which doubles the number of right digits.
fn step(m: u64, s: u64) -> u64
    requires { (m < 2 ^ 54) × (2 ^ 23 ≤ s) × (s < 2 ^ 31) }
    ensures { (s ≤ result * 2 + 1) × (result < 2 ^ 31) }
{
    (s + m / s) / 2
}

// The whole part of m's root, from any number s. From the estimate the loops hardly ever turn.
fn settle(m: u64, s: u64) -> WholeRoot
    requires { (m < 2 ^ 54) × (s < 2 ^ 31) }
    ensures { IsWholeRoot m result.root result.left }
{
    let mut q = s;
    while m < q * q {
        q = q - 1;
    }
    while (q + 1) * (q + 1) <= m {
        q = q + 1;
    }
    WholeRoot {
        root: q,
        left: m - q * q,
    }
}

// 27 digits more, by one division: (s * 2^27 + d)^2 is s^2 * 2^54 + 2 * s * d * 2^27 + d^2, so what is left over, with lo's upper half behind it, divided by
// 2 * s gives d, and d is right or, because of d^2, one too large. lo's lower half joins the remainder.
fn widen(m: u64, lo: u64, s: u64, left: u64) -> WholeRoot
    requires { (2 ^ 26 ≤ s) × (s < 2 ^ 27) × (lo < 2 ^ 54) × IsWholeRoot m s left }
    ensures { IsWholeRoot (m * 2 ^ 54 + lo) result.root result.left }
{
    let n = left * HALF + lo / HALF;
    let d = n / (s * 2);
    let u = (n % (s * 2)) * HALF + lo % HALF;
    let t = s * HALF + d;
    let v = d * d;
    if v <= u {
        WholeRoot {
            root: t,
            left: u - v,
        }
    } else {
        WholeRoot {
            root: t - 1,
            left: u + (t * 2 - 1) - v,
        }
    }
}
