// Touch points in a batch: the circles under each point.
#![tactic(auto)]

ghost use Rattle.std.specs.Prelude.{◌≡◌, ◌≤◌, length, map};
ghost use Rattle.shapes.specs.Records.{point_at};
ghost use Rattle.scope.specs.Touch.{touch_mask, touched};
ghost use Rattle.scope.specs.Twins.{first_touched};
ghost use Rattle.refusals.specs.Numbers.{number_if};
ghost use Rattle.intake.specs.Limits.{max_circles};
ghost use Rattle.intake.specs.Columns.{circles_of, overwritten};
ghost use Rattle.touch.specs.Answers.{touch_of};

use geometry::lengths::covers;
use intake::arrays::Columns;
use intake::checks::check_touch;
use intake::limits::{MAX_CIRCLES, MAX_POINTS, too_many, too_many_points};
use refusals::{Refusal, refuse_if};
use shapes::circle::Circle;
use shapes::point::Point;

// Writes for each point the mask of the circles that it lies in: bit j is circle j, and a point on the edge lies in the circle. What the list has behind the
// points' answers stays, and a refused list is not written to.
// Refused: too many circles (1), a centre or a point (3), a radius (4), two circles of one ink (14), too many points (18), fewer answers than points (19).
pub fn touch_points(
    circles: &[Circle],
    points: &[Point],
    answers: &mut [u64],
) -> Result<(), Refusal>
    ensures { touch_of (number_if result) answers.new ≡ touched circles.now points.now answers.old }
{
    check_touch(circles, points, answers.len())?;
    let c = Columns::of(circles);
    put_masks(answers, &c.xs[..c.n], &c.ys[..c.n], &c.radii[..c.n], points);
    Ok(())
}

// The same of the first n circles of an array and the first m points of another. The others are not looked at, but that a count of points which is too large
// is refused (18) only where no circle and no point of the array is.
pub fn touch_points_by_value(
    circles: [Circle; MAX_CIRCLES],
    n: usize,
    points: [Point; MAX_POINTS],
    m: usize,
    answers: &mut [u64],
) -> Result<(), Refusal>
    ensures { touch_of (number_if result) answers.new ≡ first_touched n circles m points answers.old }
{
    refuse_if(too_many(n), Refusal::TooManyCircles)?;
    let run = &circles[..n];
    if too_many_points(m) {
        check_touch(run, &points, MAX_POINTS)?;
        return Err(Refusal::TooManyPoints);
    }
    touch_points(run, &points[..m], answers)
}

// The answer for each point, from the front of a list on.
fn put_masks(answers: &mut [u64], xs: &[f64], ys: &[f64], radii: &[f64], points: &[Point])
    requires { (length ys.now ≡ length xs.now) × (length radii.now ≡ length xs.now) × (length xs.now ≤ max_circles)
        × (length points.now ≤ length answers.old) }
    ensures { answers.new
        ≡ overwritten (map (touch_mask (circles_of xs.now ys.now radii.now)) points.now) answers.old }
{
    for (i, p) in points.iter().enumerate() {
        answers[i] = mask_at(xs, ys, radii, p.x, p.y);
    }
}

// The mask of the circles that a point lies in.
fn mask_at(xs: &[f64], ys: &[f64], radii: &[f64], x: f64, y: f64) -> u64
    requires { (length ys.now ≡ length xs.now) × (length radii.now ≡ length xs.now) × (length xs.now ≤ max_circles) }
    ensures { result ≡ touch_mask (circles_of xs.now ys.now radii.now) (point_at x y) }
{
    let mut mask: u64 = 0;
    for j in 0..xs.len() {
        if covers(xs[j] - x, ys[j] - y, radii[j]) {
            mask += 1u64 << j;
        }
    }
    mask
}
