// What stands in an array where there is no circle.
ghost use Rattle.std.specs.Prelude.{◌≡◌};
ghost use Rattle.intake.specs.Blanks.{blank};

use shapes::circle::Circle;
use shapes::point::Point;

// A point at the origin: every number is 0.
pub fn blank() -> Circle
    ensures { result ≡ blank }
{
    Circle {
        center: Point { x: 0.0, y: 0.0 },
        radius: 0.0,
        ink: 0,
    }
}
