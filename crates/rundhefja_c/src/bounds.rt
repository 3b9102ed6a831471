// The exports of `rundhefja::bounds`, each with its clauses.
ghost use Rattle.std.specs.Prelude.{◌≡◌};
ghost use Rattle.shapes.specs.Boxes.{width_of, height_of, area_of, corners_of, union_of, overlap_of, circle_box, rectangle_box};
ghost use Rattle.shapes.specs.Lift.{lifted_circle};
ghost use Rattle.rundhefja.specs.Answers.{shared_of};

use rundhefja::answers::Shared;
use shapes::bounds::{Bounds, Corners};
use shapes::circle::Circle;
use shapes::rectangle::Rectangle;

#[unsafe(no_mangle)]
pub extern "C" fn rundhefja_bounds_width(b: Bounds) -> f64
    ensures { result ≡ width_of b }
{
    rundhefja::bounds::rundhefja_bounds_width(b)
}

#[unsafe(no_mangle)]
pub extern "C" fn rundhefja_bounds_height(b: Bounds) -> f64
    ensures { result ≡ height_of b }
{
    rundhefja::bounds::rundhefja_bounds_height(b)
}

#[unsafe(no_mangle)]
pub extern "C" fn rundhefja_bounds_area(b: Bounds) -> f64
    ensures { result ≡ area_of b }
{
    rundhefja::bounds::rundhefja_bounds_area(b)
}

#[unsafe(no_mangle)]
pub extern "C" fn rundhefja_bounds_to_points(b: Bounds) -> Corners
    ensures { result ≡ corners_of b }
{
    rundhefja::bounds::rundhefja_bounds_to_points(b)
}

#[unsafe(no_mangle)]
pub extern "C" fn rundhefja_bounds_union(a: Bounds, b: Bounds) -> Bounds
    ensures { result ≡ union_of a b }
{
    rundhefja::bounds::rundhefja_bounds_union(a, b)
}

#[unsafe(no_mangle)]
pub extern "C" fn rundhefja_bounds_intersection(a: Bounds, b: Bounds) -> Shared
    ensures { result ≡ shared_of (overlap_of a b) }
{
    rundhefja::bounds::rundhefja_bounds_intersection(a, b)
}

#[unsafe(no_mangle)]
pub extern "C" fn rundhefja_circle_bounds(c: Circle) -> Bounds
    ensures { result ≡ circle_box c }
{
    rundhefja::bounds::rundhefja_circle_bounds(c)
}

#[unsafe(no_mangle)]
pub extern "C" fn rundhefja_rectangle_bounds(r: Rectangle) -> Bounds
    ensures { result ≡ rectangle_box r }
{
    rundhefja::bounds::rundhefja_rectangle_bounds(r)
}

// The radius is lifted.
#[unsafe(no_mangle)]
pub extern "C" fn rundhefja_circle_from_params(x: f64, y: f64, radius: f64, ink: u16) -> Circle
    ensures { result ≡ lifted_circle x y radius ink }
{
    rundhefja::bounds::rundhefja_circle_from_params(x, y, radius, ink)
}
