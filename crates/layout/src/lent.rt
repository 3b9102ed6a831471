// What goes back into a lent run of circles.
ghost use Rattle.std.specs.Prelude.{◌≡◌, length};
ghost use Rattle.scope.specs.Refusals.{inks};
ghost use Rattle.laws.specs.Inks.{inked};
ghost use Rattle.intake.specs.Columns.{circles_of, radii_of};

use shapes::circle::Circle;
use shapes::point::Point;

// Writes centres over those of a run; every other field stays as it is.
pub(crate) fn join(circles: &mut [Circle], xs: &[f64], ys: &[f64])
    requires { (length xs.now ≡ length circles.old) × (length ys.now ≡ length circles.old) }
    ensures { circles.new ≡ inked (inks circles.old) (circles_of xs.now ys.now (radii_of circles.old)) }
{
    for (i, circle) in circles.iter_mut().enumerate() {
        circle.center = Point { x: xs[i], y: ys[i] };
    }
}
