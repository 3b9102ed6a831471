// bounds.rs, and the records that are worked out: they accept every f64 and refuse none.
ghost use Rattle.std.specs.Prelude.{◌≡◌};
ghost use Rattle.shapes.specs.Boxes.{
  width_of,
  height_of,
  area_of,
  corners_of,
  union_of,
  overlap_of,
  circle_box,
  rectangle_box,
};
ghost use Rattle.shapes.specs.Lift.{lifted_circle};
ghost use Rattle.rundhefja.specs.Answers.{shared_of};

use crate::answers::Shared;
use shapes::bounds::{Bounds, Corners};
use shapes::circle::Circle;
use shapes::rectangle::Rectangle;

pub fn rundhefja_bounds_width(b: Bounds) -> f64
    ensures { result ≡ width_of b }
{
    b.width()
}

pub fn rundhefja_bounds_height(b: Bounds) -> f64
    ensures { result ≡ height_of b }
{
    b.height()
}

pub fn rundhefja_bounds_area(b: Bounds) -> f64
    ensures { result ≡ area_of b }
{
    b.area()
}

pub fn rundhefja_bounds_to_points(b: Bounds) -> Corners
    ensures { result ≡ corners_of b }
{
    b.to_points()
}

pub fn rundhefja_bounds_union(a: Bounds, b: Bounds) -> Bounds
    ensures { result ≡ union_of a b }
{
    a.union(b)
}

pub fn rundhefja_bounds_intersection(a: Bounds, b: Bounds) -> Shared
    ensures { result ≡ shared_of (overlap_of a b) }
{
    a.intersection(b).into()
}

pub fn rundhefja_circle_bounds(c: Circle) -> Bounds
    ensures { result ≡ circle_box c }
{
    c.bounds()
}

pub fn rundhefja_rectangle_bounds(r: Rectangle) -> Bounds
    ensures { result ≡ rectangle_box r }
{
    r.bounds()
}

// The radius is lifted.
pub fn rundhefja_circle_from_params(x: f64, y: f64, radius: f64, ink: u16) -> Circle
    ensures { result ≡ lifted_circle x y radius ink }
{
    Circle::from_params(x, y, radius, ink)
}
