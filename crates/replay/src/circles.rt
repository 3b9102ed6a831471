// Distances and tests of circles: the refusal's number, then the answers, which are 0 after a refusal.
use crate::body::Body;
use geometry::{circle, point};

// Two points, the refusal, the distance.
pub fn distance_agrees(mut body: Body<'_>) -> Option<()> {
    let a = body.point()?;
    let b = body.point()?;
    let distance = point::distance(a, b);
    body.is_refusal(&distance)?;
    body.is_result(distance.unwrap_or(0.0))?;
    body.ends()
}

// Two circles, the refusal, the distance, whether the first contains the second, whether they intersect.
pub fn pair_agrees(mut body: Body<'_>) -> Option<()> {
    let a = body.circle()?;
    let b = body.circle()?;
    let distance = circle::distance(a, b);
    let contains = circle::contains(a, b);
    let intersects = circle::intersects(a, b);
    body.is_refusal(&distance)?;
    (contains.err() == distance.err() && intersects.err() == distance.err()).then_some(())?;
    body.is_result(distance.unwrap_or(0.0))?;
    body.is_byte(u8::from(contains.unwrap_or(false)))?;
    body.is_byte(u8::from(intersects.unwrap_or(false)))?;
    body.ends()
}

// A circle, a point, the refusal, whether the circle contains the point.
pub fn point_agrees(mut body: Body<'_>) -> Option<()> {
    let c = body.circle()?;
    let p = body.point()?;
    let contains = circle::contains_point(c, p);
    body.is_refusal(&contains)?;
    body.is_byte(u8::from(contains.unwrap_or(false)))?;
    body.ends()
}
