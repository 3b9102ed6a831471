// The distance of two points.
ghost use Rattle.std.specs.Prelude.{◌≡◌};
ghost use Rattle.scope.specs.Distance.{distance, distance_answer};
ghost use Rattle.refusals.specs.Numbers.{answer_of};

use crate::lengths::apart;
use intake::checks::check_points;
use refusals::Refusal;
use shapes::point::Point;

// A coordinate that is not finite or out of range gives 3.
pub fn distance(p: Point, q: Point) -> Result<f64, Refusal>
    ensures { answer_of result ≡ distance_answer p q }
{
    check_points(p, q)?;
    Ok(raw_distance(p, q))
}

pub(crate) fn raw_distance(p: Point, q: Point) -> f64
    ensures { result ≡ distance p q }
{
    apart(p.x - q.x, p.y - q.y)
}
