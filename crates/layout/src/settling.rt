// A layout in its container: the container to the origin, the circles to its middle.
ghost use Rattle.std.specs.Prelude.{◌≡◌};
ghost use Rattle.scope.specs.Container.{centred_in, settled};
ghost use Rattle.layout.specs.Settling.{off, near, past, past_either, stays, along, at_origin, placed};
ghost use Rattle.layout.specs.Shown.{CircleLists, Become};

use crate::axis::{Range, middle, range_of, to_origin, translate};
use geometry::lengths::absolute;
use shapes::extremes::maximum;
use shapes::point::Point;
use shapes::rectangle::Rectangle;

// The circles along with a container that goes to the origin, and then to its middle.
pub(crate) fn settled(xs: &mut [f64], ys: &mut [f64], radii: &[f64], container: Rectangle)
    requires { CircleLists xs.old ys.old radii.now }
    ensures { Become (λ cs. (settled container cs).circles) xs.old ys.old radii.now xs.new ys.new }
{
    go_along(xs, ys, container.center.x, container.center.y);
    center_shapes_in_container(xs, ys, radii, container.width, container.height);
}

// Where the container then stands.
pub(crate) fn placed(container: Rectangle) -> Rectangle
    ensures { result ≡ placed container }
{
    if is_off(container.center.x, container.center.y) {
        return Rectangle::new(Point::new(0.0, 0.0), container.width, container.height);
    }
    container
}

fn go_along(xs: &mut [f64], ys: &mut [f64], x: f64, y: f64)
    ensures xs { xs.new ≡ along x y x xs.old }
    ensures ys { ys.new ≡ along x y y ys.old }
{
    if is_off(x, y) {
        translate(xs, -x);
        translate(ys, -y);
    }
}

fn center_shapes_in_container(
    xs: &mut [f64],
    ys: &mut [f64],
    radii: &[f64],
    width: f64,
    height: f64,
)
    requires { CircleLists xs.old ys.old radii.now }
    ensures { Become (centred_in (at_origin width height)) xs.old ys.old radii.now xs.new ys.new }
{
    let across = range_of(xs, radii);
    let up = range_of(ys, radii);
    if stays(xs.len(), width, height, across, up) {
        return;
    }
    to_origin(xs, across);
    to_origin(ys, up);
}

// Whether n circles are left where they are: none, too large for the container, or in the middle already: they stay to the last bit.
fn stays(n: usize, width: f64, height: f64, across: Range, up: Range) -> bool
    ensures { result ≡ stays n width height across up }
{
    if n == 0 {
        return true;
    }
    reaches_past(width, height, across, up)
        || is_near(middle(across.low, across.high), middle(up.low, up.high))
}

// Whether a point is too far from the origin to count as there, and whether it is near enough. A NaN is neither.
fn is_off(x: f64, y: f64) -> bool
    ensures { result ≡ off x y }
{
    1e-12 < absolute(x) || 1e-12 < absolute(y)
}

fn is_near(x: f64, y: f64) -> bool
    ensures { result ≡ near x y }
{
    absolute(x) < 1e-12 && absolute(y) < 1e-12
}

// Whether the circles reach past a container that stands at the origin, by more than rounding explains.
fn reaches_past(width: f64, height: f64, across: Range, up: Range) -> bool
    ensures { result ≡ past_either width height across up }
{
    let half_width = width / 2.0;
    let half_height = height / 2.0;
    let tolerance = 1e-9 * maximum(maximum(half_width, half_height), 1.0);
    is_past(across, half_width, tolerance) || is_past(up, half_height, tolerance)
}

fn is_past(r: Range, half: f64, tolerance: f64) -> bool
    ensures { result ≡ past r half tolerance }
{
    r.low < -half - tolerance || half + tolerance < r.high
}
