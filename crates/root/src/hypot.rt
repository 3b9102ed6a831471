// IEEE 754's hypot of two f64s, correctly rounded, from integers alone: the f64 nearest the exact root of the exact sum of their squares.
ghost use Rattle.std.specs.Prelude.{◌≡◌, not, ◌+◌, ◌-◌, ◌*◌, ◌^◌, ◌≤◌, ◌<◌, T};
ghost use Rattle.std.specs.Float.{nan, binary64};
ghost use Rattle.std.specs.Float.Ieee.{is_nan};
ghost use Rattle.rounding.specs.Root.{hypot};
ghost use Rattle.root.specs.Parts.{infinity, pattern_units};
ghost use Rattle.root.specs.Sums.{IsNearestRootOf, IsRounded};

use crate::pattern::{INFINITY, LEADING, SIGN, in_units};
use crate::{squares, whole};

// With exponents so far apart the smaller square raises the root by less than half of a last place.
const APART: u64 = 27;

// An infinity gives +infinity, even beside a NaN.
pub fn hypot(x: f64, y: f64) -> f64
    ensures { result ≡ hypot binary64 x y }
{
    if x != x {
        return beside_nan(y);
    }
    if y != y {
        return beside_nan(x);
    }
    numbers(x, y)
}

// The hypot of a NaN and x.
fn beside_nan(x: f64) -> f64
    ensures { (result ≡ hypot binary64 nan x) × (result ≡ hypot binary64 x nan) }
{
    if x == 1.0 / 0.0 {
        return x;
    }
    if x == -1.0 / 0.0 {
        return -x;
    }
    0.0 / 0.0
}

// Of two numbers, which may be infinite. A sign does not matter, nor does the order.
fn numbers(x: f64, y: f64) -> f64
    requires { T (not (is_nan x)) × T (not (is_nan y)) }
    ensures { result ≡ hypot binary64 x y }
{
    let p = f64::to_bits(x) % SIGN;
    let q = f64::to_bits(y) % SIGN;
    let mut a = p;
    let mut b = q;
    if p < q {
        a = q;
        b = p;
    }
    if a == INFINITY {
        return f64::from_bits(INFINITY);
    }
    f64::from_bits(ordered(a, b))
}

// The pattern of the answer, from the patterns of two finite numbers without sign, the larger first.
fn ordered(a: u64, b: u64) -> u64
    requires { (b ≤ a) × (a < infinity) }
    ensures { IsNearestRootOf (pattern_units a * pattern_units a + pattern_units b * pattern_units b) result }
{
    if a < LEADING {
        return subnormal(a, b);
    }
    let x = in_units(a);
    let y = in_units(b);
    let d = x.exponent - y.exponent;
    if APART <= d {
        return a;
    }
    joined(x.digits, y.digits, d, x.exponent)
}

// Of a * 2^e and b * 2^(e - d) units, where a has 53 digits.
fn joined(a: u64, b: u64, d: u64, e: u64) -> u64
    requires { (2 ^ 52 ≤ a) × (a < 2 ^ 53) × (b < 2 ^ 53) × (d ≤ 26) × (d ≤ e) × (e < 2046) }
    ensures { IsNearestRootOf (a * 2 ^ e * (a * 2 ^ e) + b * 2 ^ (e - d) * (b * 2 ^ (e - d))) result }
{
    let s = squares::sum(a, b, d);
    let w = whole::root(s.hi, s.lo);
    let z = (e + s.high) * LEADING + rounded(w.root, w.left, 2 * b, d + s.high);
    // A carry goes on into the exponent, where it belongs, and past the last exponent to infinity.
    if z < INFINITY { z } else { INFINITY }
}

// One of the root's 54 digits is too many. Where it is 1 it rounds up, unless that is a tie and up is odd. A tie is a root with nothing left over, of a sum
// of which nothing was cut off: of b * b the part below 4^k was, so b is a multiple of 2^k.
fn rounded(root: u64, left: u64, b: u64, k: u64) -> u64
    requires { (root < 2 ^ 54) × (b < 2 ^ 54) × (k ≤ 27) }
    ensures { IsRounded root left b k result }
{
    let up = (root + 1) / 2;
    if left != 0 {
        return up;
    }
    if root % 4 != 1 {
        return up;
    }
    if (b >> k) << k != b {
        return up;
    }
    root / 2
}

// Of p and q units, both below the smallest normal number: brought to 53 digits, and the root back to whole units. There is no tie: the square of a
// half-way point is no whole number.
fn subnormal(p: u64, q: u64) -> u64
    requires { (q ≤ p) × (p < 2 ^ 52) }
    ensures { IsNearestRootOf (p * p + q * q) result }
{
    if p == 0 {
        return 0;
    }
    let mut a = p;
    let mut b = q;
    let mut k: u64 = 0;
    while a < LEADING {
        a = a * 2;
        b = b * 2;
        k = k + 1;
    }
    let s = squares::sum(a, b, 0);
    let w = whole::root(s.hi, s.lo);
    let j = k - s.high;
    (w.root + (1u64 << j)) >> (j + 1)
}
