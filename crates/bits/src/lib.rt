// Floats and their patterns.
#![tactic(auto)]

ghost use Rattle.std.specs.Prelude.{◌≡◌};
ghost use Rattle.scope.specs.CardFile.{float_of, pattern_of};
ghost use Rattle.scope.specs.Print.{bits_of};

// 2^52, one step of the exponent field, and 2^63, the sign.
const FIELD: u64 = 4503599627370496;

const SIGN: u64 = 9223372036854775808;

// The float of a pattern. Every NaN pattern is the one NaN.
pub fn float_of(pattern: u64) -> f64
    ensures { result ≡ float_of pattern }
{
    if pattern % SIGN / FIELD == 2047 && pattern % FIELD != 0 {
        f64::NAN
    } else {
        f64::from_bits(pattern)
    }
}

// The pattern of a float: that of a NaN has only the highest digit set.
pub fn pattern_of(x: f64) -> u64
    ensures { result ≡ pattern_of x }
{
    if x.is_nan() {
        9221120237041090560
    } else {
        x.to_bits()
    }
}

// The pattern that is printed: either zero as 0.
pub fn bits_of(x: f64) -> u64
    ensures { result ≡ bits_of x }
{
    if x == 0.0 { 0 } else { pattern_of(x) }
}
