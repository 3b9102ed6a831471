// Bounds, the lift, and the boxes of circle and rectangle, none of which refuses.
use crate::body::Body;
use shapes::bounds::Bounds;
use shapes::circle::Circle;
use shapes::point::Point;
use shapes::rectangle::Rectangle;

// Two boxes, a radius and an ink; the union, whether and what they share, width, height and area, the lifted radius and the ink, the box of the circle and that
// of the rectangle.
pub fn boxes_agree(mut body: Body<'_>) -> Option<()> {
    let a = body.bounds()?;
    let b = body.bounds()?;
    let radius = body.float()?;
    let ink = body.short()?;
    body.is_bounds(a.union(b))?;
    shared(&mut body, a.intersection(b))?;
    body.is_result(a.width())?;
    body.is_result(a.height())?;
    body.is_result(a.area())?;
    circle(&mut body, a, radius, ink)?;
    rectangle(&mut body, b)?;
    body.ends()
}

fn shared(body: &mut Body<'_>, overlap: Option<Bounds>) -> Option<()> {
    body.is_byte(u8::from(overlap.is_some()))?;
    body.is_bounds(overlap.unwrap_or(Bounds::new(0.0, 0.0, 0.0, 0.0)))
}

fn circle(body: &mut Body<'_>, a: Bounds, radius: f64, ink: u16) -> Option<()> {
    let lifted = Circle::from_params(a.x_min, a.x_max, radius, ink);
    let c = Circle {
        center: Point {
            x: a.x_min,
            y: a.x_max,
        },
        radius,
        ink,
    };
    body.is_result(lifted.radius())?;
    body.is_short(lifted.ink())?;
    body.is_bounds(c.bounds())
}

fn rectangle(body: &mut Body<'_>, b: Bounds) -> Option<()> {
    let r = Rectangle {
        center: Point {
            x: b.x_min,
            y: b.x_max,
        },
        width: b.y_min,
        height: b.y_max,
    };
    body.is_bounds(r.bounds())
}
