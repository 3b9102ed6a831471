// A layout in its container: the container to the origin, the circles to its middle. Nothing is turned or mirrored: the container is a
// frame whose sides lie along the axes, and it could not follow.
ghost use Rattle.std.specs.Prelude.{◌≡◌};
ghost use Rattle.scope.specs.Container.{contained};
ghost use Rattle.scope.specs.Twins.{first_contained};
ghost use Rattle.layout.specs.Answers.{contained_of, first_settled};

use crate::lent::join;
use crate::settling::{placed, settled};
use intake::arrays::Columns;
use intake::checks::check_container;
use intake::limits::{MAX_CIRCLES, too_many};
use refusals::{Refusal, refuse_if};
use shapes::circle::Circle;
use shapes::rectangle::Rectangle;

// Moves the container to the origin, the circles along, and then the circles to its middle, unless they reach past its edge: what of them
// shows depends on where the edge cuts them, and a move would change that.
// Rewrites the centres of a lent run. A refused run is not written to.
// Refused: too many circles (1), a centre (3), a radius (4), a side (7), two circles of one ink (14).
pub fn normalize_layout_with_container(
    circles: &mut [Circle],
    container: Rectangle,
) -> Result<Rectangle, Refusal>
    ensures { contained_of container result circles.new ≡ contained circles.old container }
{
    check_container(circles, container)?;
    let mut c = Columns::of(circles);
    let n = c.n;
    let xs = &mut c.xs[..n];
    let ys = &mut c.ys[..n];
    settled(xs, ys, &c.radii[..n], container);
    join(circles, xs, ys);
    Ok(placed(container))
}

// Where the container now stands, and the array of circles as it then is.
#[derive(Clone, Copy)]
pub struct InContainer {
    pub container: Rectangle,
    pub circles: [Circle; MAX_CIRCLES],
}

// The same of the first n circles of an array. The others are not looked at, and stay.
pub fn normalize_layout_with_container_by_value(
    circles: [Circle; MAX_CIRCLES],
    n: usize,
    container: Rectangle,
) -> Result<InContainer, Refusal>
    ensures { first_settled circles container result ≡ first_contained n circles container }
{
    refuse_if(too_many(n), Refusal::TooManyCircles)?;
    let mut placed = circles;
    let at = normalize_layout_with_container(&mut placed[..n], container)?;
    Ok(InContainer {
        container: at,
        circles: placed,
    })
}
