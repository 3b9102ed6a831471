// Tests and distances of two circles. Each call checks both: 3 for a centre of either, before 4 for a radius of either.
ghost use Rattle.std.specs.Prelude.{◌≡◌};
ghost use Rattle.scope.specs.Distance.{
  contains,
  contains_point,
  intersects,
  circle_distance,
  contains_answer,
  contains_point_answer,
  intersects_answer,
  circle_distance_answer,
};
ghost use Rattle.scope.specs.Links.{overlap};
ghost use Rattle.refusals.specs.Numbers.{answer_of};

use crate::lengths::{apart, covers, crossing, meets, within};
use crate::point::raw_distance;
use intake::checks::{check_circle_and_point, check_pair};
use refusals::Refusal;
use shapes::circle::Circle;
use shapes::point::Point;

// The centres' distance less the sum of the radii, and 0 for circles that touch or overlap.
pub fn distance(a: Circle, b: Circle) -> Result<f64, Refusal>
    ensures { answer_of result ≡ circle_distance_answer a b }
{
    check_pair(a, b)?;
    Ok(raw_circle_distance(a, b))
}

// Whether b lies inside a. A circle that touches the edge from inside does.
pub fn contains(a: Circle, b: Circle) -> Result<bool, Refusal>
    ensures { answer_of result ≡ contains_answer a b }
{
    check_pair(a, b)?;
    Ok(encloses(a, b))
}

// Whether p lies in c. A point on the edge does.
pub fn contains_point(c: Circle, p: Point) -> Result<bool, Refusal>
    ensures { answer_of result ≡ contains_point_answer c p }
{
    check_circle_and_point(c, p)?;
    Ok(raw_contains_point(c, p))
}

// Whether the edges cross: circles that touch, from outside or from inside, do not intersect.
pub fn intersects(a: Circle, b: Circle) -> Result<bool, Refusal>
    ensures { answer_of result ≡ intersects_answer a b }
{
    check_pair(a, b)?;
    Ok(raw_intersects(a, b))
}

// ---- without the checks

// Whether their edges cross, or one lies inside the other. All by one distance: it is the same from either circle.
pub fn overlap(a: Circle, b: Circle) -> bool
    ensures { result ≡ overlap a b }
{
    meets(
        apart(a.center.x - b.center.x, a.center.y - b.center.y),
        a.radius,
        b.radius,
    )
}

fn raw_circle_distance(a: Circle, b: Circle) -> f64
    ensures { result ≡ circle_distance a b }
{
    let d = raw_distance(a.center, b.center);
    let s = a.radius + b.radius;
    if s < d { d - s } else { 0.0 }
}

// Whether b lies inside a. A circle that touches the edge from inside does.
pub fn encloses(a: Circle, b: Circle) -> bool
    ensures { result ≡ contains a b }
{
    within(raw_distance(a.center, b.center), b.radius, a.radius)
}

fn raw_contains_point(c: Circle, p: Point) -> bool
    ensures { result ≡ contains_point c p }
{
    covers(c.center.x - p.x, c.center.y - p.y, c.radius)
}

fn raw_intersects(a: Circle, b: Circle) -> bool
    ensures { result ≡ intersects a b }
{
    crossing(raw_distance(a.center, b.center), a.radius, b.radius)
}
