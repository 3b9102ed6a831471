// The gauge of normalize.rs: each cluster turned and mirrored, so that its first two circles lie level and the first stands at the lower
// left. Which way a cluster lies says nothing of its inks, so one way is chosen for all, and circles lose nothing by it: a turned circle is
// a circle. A cluster is the circles that have its number.
ghost use Rattle.std.specs.Prelude.{◌≡◌, ◌&&◌, ◌<◌, ◌≤◌, length, IfSome};
ghost use Rattle.std.specs.Option.{unwrap_or};
ghost use Rattle.std.specs.Float.Ieee.{eq};
ghost use Rattle.scope.specs.Numbers.{◌-ᶠ◌, ◌*ᶠ◌, ◌<ᶠ◌, ◌≤ᶠ◌, nought, two, e_10, abs};
ghost use Rattle.scope.specs.Gauge.{in_cluster, rotate_cluster, gauged, level, turn};
ghost use Rattle.intake.specs.Columns.{at, members};
ghost use Rattle.intake.specs.Firsts.{FirstFrom};
ghost use Rattle.layout.specs.Ranges.{range_over};
ghost use Rattle.layout.specs.Shown.{AllBecome};
ghost use Rattle.layout.specs.Turns.{
  as_turn,
  turned_x,
  turned_y,
  turned_xs,
  turned_ys,
  mirrored,
};

use crate::axis::{Range, middle, nothing, widened};
use geometry::lengths::{absolute, root_or_nan};
use shapes::extremes::maximum;

#[derive(Clone, Copy)]
struct Turn {
    cosine: f64,
    sine: f64,
}

// Every cluster in turn.
pub(crate) fn gauged_clusters(xs: &mut [f64], ys: &mut [f64], numbers: &[u8], count: usize)
    requires { (length ys.old ≡ length xs.old) × (length numbers.now ≡ length xs.old) }
    ensures { AllBecome (gauged count numbers.now) xs.old ys.old xs.new ys.new }
{
    for a in 0..count {
        rotate_cluster(xs, ys, numbers, a);
    }
}

// A cluster of one circle has no direction, and stays.
fn rotate_cluster(xs: &mut [f64], ys: &mut [f64], numbers: &[u8], a: usize)
    requires { (length ys.old ≡ length xs.old) × (length numbers.now ≡ length xs.old) }
    ensures { AllBecome (rotate_cluster (in_cluster numbers.now a)) xs.old ys.old xs.new ys.new }
{
    let Some(first) = next_member(numbers, a, 0) else {
        return;
    };
    let Some(second) = next_member(numbers, a, first + 1) else {
        return;
    };
    turn_level(xs, ys, numbers, a, first, second);
    mirror(xs, numbers, a, first);
    mirror(ys, numbers, a, first);
}

// The first circle of the cluster at or past a place.
fn next_member(numbers: &[u8], a: usize, from: usize) -> Option<usize>
    requires { from ≤ length numbers.now }
    ensures first { let n = length numbers.now in FirstFrom (in_cluster numbers.now a) from n (unwrap_or result n) }
    ensures inside { IfSome result (λ i. i < length numbers.now) }
{
    for i in from..numbers.len() {
        if usize::from(numbers[i]) == a {
            return Some(i);
        }
    }
    None
}

// ---- the turn

// Turns the cluster about its first circle until the second lies level with it, on its right.
fn turn_level(xs: &mut [f64], ys: &mut [f64], numbers: &[u8], a: usize, first: usize, second: usize)
    requires { (length ys.old ≡ length xs.old) × (length numbers.now ≡ length xs.old) × (first < length xs.old) × (second < length xs.old) }
    ensures x { xs.new ≡ turned_xs (in_cluster numbers.now a) first second xs.old ys.old }
    ensures y { ys.new ≡ turned_ys (in_cluster numbers.now a) first second xs.old ys.old }
{
    let x = xs[first];
    let y = ys[first];
    let dx = xs[second] - x;
    let dy = ys[second] - y;
    if is_level(dx, dy) {
        return;
    }
    all_turned(xs, ys, numbers, a, turn_of(dx, dy), x, y);
}

fn is_level(dx: f64, dy: f64) -> bool
    ensures { result ≡ level dx dy }
{
    is_still(dx, dy) || is_flat(dx, dy)
}

fn is_still(dx: f64, dy: f64) -> bool
    ensures { result ≡ eq dx nought && eq dy nought }
{
    dx == 0.0 && dy == 0.0
}

fn is_flat(dx: f64, dy: f64) -> bool
    ensures { result ≡ (nought <ᶠ dx) && (abs dy ≤ᶠ e_10 *ᶠ dx) }
{
    0.0 < dx && absolute(dy) <= 1e-10 * dx
}

// The cosine and the sine of the angle that takes (dx, dy) to the right. The larger side is divided out first, so no square overflows.
fn turn_of(dx: f64, dy: f64) -> Turn
    ensures { as_turn result ≡ turn dx dy }
{
    let m = maximum(absolute(dx), absolute(dy));
    let a = dx / m;
    let b = dy / m;
    let h = root_or_nan(a * a + b * b);
    Turn {
        cosine: a / h,
        sine: -(b / h),
    }
}

// The circles of the cluster turned about (p, q), the others as they were.
fn all_turned(xs: &mut [f64], ys: &mut [f64], numbers: &[u8], a: usize, t: Turn, p: f64, q: f64)
    requires { (length ys.old ≡ length xs.old) × (length numbers.now ≡ length xs.old) }
    ensures x { xs.new ≡ members (in_cluster numbers.now a)
        (λ i x. turned_x (as_turn t) p q x (at ys.old i)) xs.old }
    ensures y { ys.new ≡ members (in_cluster numbers.now a)
        (λ i y. turned_y (as_turn t) p q (at xs.old i) y) ys.old }
{
    for (i, &number) in numbers.iter().enumerate() {
        if usize::from(number) == a {
            let dx = xs[i] - p;
            let dy = ys[i] - q;
            xs[i] = p + dx * t.cosine - dy * t.sine;
            ys[i] = q + dx * t.sine + dy * t.cosine;
        }
    }
}

// ---- the mirrors

// Mirrors the cluster on one axis about the middle of its centres, if its first circle is beyond that.
fn mirror(coords: &mut [f64], numbers: &[u8], a: usize, first: usize)
    requires { (length numbers.now ≡ length coords.old) × (first < length coords.old) }
    ensures { coords.new ≡ mirrored (in_cluster numbers.now a) first coords.old }
{
    let r = centres_range(coords, numbers, a);
    let m = middle(r.low, r.high);
    if m < coords[first] {
        all_mirrored(coords, numbers, a, m);
    }
}

// The range of its centres.
fn centres_range(coords: &[f64], numbers: &[u8], a: usize) -> Range
    requires { length numbers.now ≡ length coords.now }
    ensures { result ≡ range_over (in_cluster numbers.now a) (length coords.now) (at coords.now) (at coords.now) }
{
    let mut r = nothing();
    for (&x, &number) in coords.iter().zip(numbers) {
        if usize::from(number) == a {
            r = widened(r, x, x);
        }
    }
    r
}

fn all_mirrored(coords: &mut [f64], numbers: &[u8], a: usize, m: f64)
    requires { length numbers.now ≡ length coords.old }
    ensures { coords.new ≡ members (in_cluster numbers.now a) (λ _ x. two *ᶠ m -ᶠ x) coords.old }
{
    for (i, x) in coords.iter_mut().enumerate() {
        if usize::from(numbers[i]) == a {
            *x = 2.0 * m - *x;
        }
    }
}
