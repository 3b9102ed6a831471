// One axis of a layout. What moves on both axes alike is one function for an axis, called for x and for y.
ghost use Rattle.std.specs.Prelude.{◌≡◌, length};
ghost use Rattle.scope.specs.Numbers.{◌+ᶠ◌};
ghost use Rattle.scope.specs.Gauge.{middle};
ghost use Rattle.scope.specs.Centring.{centred_layout};
ghost use Rattle.intake.specs.Columns.{each};
ghost use Rattle.layout.specs.Ranges.{no_range, widened, range_of_all, middle_of, moved_back, centred_on};
ghost use Rattle.layout.specs.Shown.{CircleLists, Become};

use shapes::extremes::{maximum, minimum};

#[derive(Clone, Copy)]
pub(crate) struct Range {
    pub(crate) low: f64,
    pub(crate) high: f64,
}

// A range that holds nothing, to start from.
pub(crate) fn nothing() -> Range
    ensures { result ≡ no_range }
{
    let infinity = 1.0 / 0.0;
    Range {
        low: infinity,
        high: -infinity,
    }
}

pub(crate) fn widened(r: Range, low: f64, high: f64) -> Range
    ensures { result ≡ widened r low high }
{
    Range {
        low: minimum(r.low, low),
        high: maximum(r.high, high),
    }
}

pub(crate) fn middle(low: f64, high: f64) -> f64
    ensures { result ≡ middle low high }
{
    (low + high) / 2.0
}

pub(crate) fn translate(coords: &mut [f64], d: f64)
    ensures { coords.new ≡ each (λ _ x. x +ᶠ d) coords.old }
{
    for x in coords.iter_mut() {
        *x += d;
    }
}

// The range of all circles.
pub(crate) fn range_of(coords: &[f64], radii: &[f64]) -> Range
    requires { length radii.now ≡ length coords.now }
    ensures { result ≡ range_of_all coords.now radii.now }
{
    let mut r = nothing();
    for (&x, &radius) in coords.iter().zip(radii) {
        r = widened(r, x - radius, x + radius);
    }
    r
}

// Moves the middle of a range to the origin.
pub(crate) fn to_origin(coords: &mut [f64], r: Range)
    ensures { coords.new ≡ moved_back (middle_of r) coords.old }
{
    translate(coords, -middle(r.low, r.high));
}

// The same of the range of all circles.
fn centre(coords: &mut [f64], radii: &[f64])
    requires { length radii.now ≡ length coords.old }
    ensures { coords.new ≡ centred_on coords.old radii.now }
{
    to_origin(coords, range_of(coords, radii));
}

pub(crate) fn center_layout(xs: &mut [f64], ys: &mut [f64], radii: &[f64])
    requires { CircleLists xs.old ys.old radii.now }
    ensures { Become centred_layout xs.old ys.old radii.now xs.new ys.new }
{
    centre(xs, radii);
    centre(ys, radii);
}
