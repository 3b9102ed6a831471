// The root, distances and tests, and the column count of the grid.
ghost use Rattle.std.specs.Prelude.{◌≡◌};
ghost use Rattle.scope.specs.Distance.{
  root_answer,
  distance_answer,
  circle_distance_answer,
  contains_answer,
  contains_point_answer,
  intersects_answer,
};
ghost use Rattle.scope.specs.Packing.{columns_answer};
ghost use Rattle.rundhefja.specs.Answers.{length_of, test_of, count_of};

use crate::answers::{Count, Length, Test};
use shapes::circle::Circle;
use shapes::point::Point;

pub fn rundhefja_root(x: f64) -> Length
    ensures { result ≡ length_of (root_answer x) }
{
    root::root(x).into()
}

pub fn rundhefja_point_distance(p: Point, q: Point) -> Length
    ensures { result ≡ length_of (distance_answer p q) }
{
    geometry::point::distance(p, q).into()
}

pub fn rundhefja_distance(a: Circle, b: Circle) -> Length
    ensures { result ≡ length_of (circle_distance_answer a b) }
{
    geometry::circle::distance(a, b).into()
}

pub fn rundhefja_contains(a: Circle, b: Circle) -> Test
    ensures { result ≡ test_of (contains_answer a b) }
{
    geometry::circle::contains(a, b).into()
}

pub fn rundhefja_contains_point(c: Circle, p: Point) -> Test
    ensures { result ≡ test_of (contains_point_answer c p) }
{
    geometry::circle::contains_point(c, p).into()
}

pub fn rundhefja_intersects(a: Circle, b: Circle) -> Test
    ensures { result ≡ test_of (intersects_answer a b) }
{
    geometry::circle::intersects(a, b).into()
}

pub fn rundhefja_columns(k: usize, proportion: f64) -> Count
    ensures { result ≡ count_of (columns_answer k proportion) }
{
    packing::columns(k, proportion).into()
}
