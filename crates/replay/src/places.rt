// Column counts, packing and the container call.
use crate::body::Body;
use layout::container::{InContainer, normalize_layout_with_container_by_value};
use packing::{columns, skyline_pack_by_value};
use shapes::circle::Circle;

// How many boxes, the proportion, the refusal, the columns.
pub fn columns_agree(mut body: Body<'_>) -> Option<()> {
    let n = usize::from(body.byte()?);
    let proportion = body.float()?;
    let answer = columns(n, proportion);
    body.is_refusal(&answer)?;
    body.is_count(answer.unwrap_or(0))?;
    body.ends()
}

// How many boxes, the padding, the proportion, the boxes; the refusal, and where there is none the boxes placed.
pub fn pack_agrees(mut body: Body<'_>) -> Option<()> {
    let n = usize::from(body.byte()?);
    let padding = body.float()?;
    let proportion = body.float()?;
    let rectangles = body.rectangles(n)?;
    let answer = skyline_pack_by_value(rectangles, n, padding, proportion);
    body.is_refusal(&answer)?;
    if let Ok(placed) = answer {
        for r in placed.get(..n)? {
            body.is_rectangle(*r)?;
        }
    }
    body.ends()
}

// How many circles, the container, the circles; the refusal, the container and, where they fit a layout, the circles.
pub fn container_agrees(mut body: Body<'_>) -> Option<()> {
    let n = usize::from(body.byte()?);
    let container = body.rectangle()?;
    let circles = body.circles(n)?;
    let answer = normalize_layout_with_container_by_value(circles, n, container);
    body.is_refusal(&answer)?;
    let settled = answer.unwrap_or(InContainer { container, circles });
    body.is_rectangle(settled.container)?;
    are_circles(&mut body, settled.circles, n)?;
    body.ends()
}

// The first n circles, where they fit a layout.
pub fn are_circles(body: &mut Body<'_>, circles: [Circle; 64], n: usize) -> Option<()> {
    if n <= 64 {
        for c in circles.get(..n)? {
            body.is_circle(*c)?;
        }
    }
    Some(())
}
