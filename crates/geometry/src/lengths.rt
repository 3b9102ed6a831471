// Lengths, and how two circles lie whose centres are so far apart: arithmetic of any numbers, infinities and NaNs too.
ghost use Rattle.std.specs.Prelude.{◌≡◌, ◌&&◌, ◌||◌};
ghost use Rattle.std.specs.Float.{binary64};
ghost use Rattle.rounding.specs.Root.{root};
ghost use Rattle.scope.specs.Numbers.{◌+ᶠ◌, ◌-ᶠ◌, ◌<ᶠ◌, ◌≤ᶠ◌, abs};
ghost use Rattle.scope.specs.Offset.{magnitude};
ghost use Rattle.geometry.specs.Lengths.{DistanceBy, HoldsBy};

use root::hypot::hypot;
use shapes::circle::Circle;

// 1 + 2^-48. A sum of squares above so much of the radius's square is outside: all roundings together are less than that off.
const ABOVE: f64 = 1.0000000000000036;

// 1 - 2^-48. One below so much of it is inside.
const BELOW: f64 = 0.9999999999999964;

// The size of a number, its sign taken off.
pub fn absolute(x: f64) -> f64
    ensures { result ≡ abs x }
{
    if x < 0.0 {
        return -x;
    }
    if x == 0.0 {
        return 0.0;
    }
    x
}

// The root, and NaN where there is none.
pub fn root_or_nan(x: f64) -> f64
    ensures { result ≡ root binary64 x }
{
    match root::root(x) {
        Ok(r) => r,
        Err(_) => 0.0 / 0.0,
    }
}

// The root of the sum of the squares, each step rounded.
pub fn magnitude(x: f64, y: f64) -> f64
    ensures { result ≡ magnitude x y }
{
    root_or_nan(x * x + y * y)
}

// The distance of two points whose coordinates differ by x and y.
pub fn apart(x: f64, y: f64) -> f64
    ensures { DistanceBy x y result }
{
    hypot(x, y)
}

// Whether a circle of radius r holds a point that lies x and y off its centre. Squares decide where they are far enough apart; near the edge the distance does.
pub fn covers(x: f64, y: f64, r: f64) -> bool
    ensures { HoldsBy x y r result }
{
    if Circle::radius_in_range(r) {
        let square = r * r;
        let sum = x * x + y * y;
        if square * ABOVE < sum {
            return false;
        }
        if sum < square * BELOW {
            return true;
        }
    }
    apart(x, y) <= r
}

// Of circles whose centres are d apart: whether one lies inside the other. One that touches the edge from inside does.
pub fn within(d: f64, inner: f64, outer: f64) -> bool
    ensures { result ≡ d +ᶠ inner ≤ᶠ outer }
{
    d + inner <= outer
}

// Whether their edges cross. Those of circles that touch, from outside or from inside, do not.
pub fn crossing(d: f64, a: f64, b: f64) -> bool
    ensures { result ≡ (d <ᶠ a +ᶠ b) && (abs (a -ᶠ b) <ᶠ d) }
{
    d < a + b && absolute(a - b) < d
}

// Whether their edges cross, or one lies inside the other.
pub fn meets(d: f64, a: f64, b: f64) -> bool
    ensures { result ≡ ((d <ᶠ a +ᶠ b) && (abs (a -ᶠ b) <ᶠ d)) || ((d +ᶠ b ≤ᶠ a) || (d +ᶠ a ≤ᶠ b)) }
{
    crossing(d, a, b) || within(d, b, a) || within(d, a, b)
}
