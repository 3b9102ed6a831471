// A circle: its centre, its radius with its lift, and the number of its ink.
ghost use Rattle.std.specs.Prelude.{◌≡◌};
ghost use Rattle.shapes.specs.Boxes.{circle_box};
ghost use Rattle.shapes.specs.Limits.{radius_in_range};
ghost use Rattle.shapes.specs.Lift.{lift, lifted_circle, moved_to};

use crate::bounds::Bounds;
use crate::extremes::maximum;
use crate::point::Point;

#[repr(C)]
#[derive(Clone, Copy)]
pub struct Circle {
    pub center: Point,
    pub radius: f64,
    // Its number in the recipe book. Every step carries it, and none looks at it.
    pub ink: u16,
}

impl Circle {
    // 2^-20, the smallest accepted radius.
    pub const MIN_RADIUS: f64 = 0.00000095367431640625;

    // 2^20, the largest.
    pub const MAX_RADIUS: f64 = 1048576.0;

    // 2^-1022, the smallest normal number.
    pub const MIN_POSITIVE: f64 = 2.2250738585072014e-308;

    // Whether a radius is accepted: the ends are, a NaN and the infinities are not.
    pub fn radius_in_range(radius: f64) -> bool
        ensures { result ≡ radius_in_range radius }
    {
        Self::MIN_RADIUS <= radius && radius <= Self::MAX_RADIUS
    }

    // A circle's radius is above 0, whatever was worked out for it; only a NaN stays.
    fn lift(radius: f64) -> f64
        ensures { result ≡ lift radius }
    {
        maximum(radius, Self::MIN_POSITIVE)
    }

    // The circle of these numbers. A radius that is too small, 0 or negative is lifted, so that the circle is one.
    pub fn from_params(x: f64, y: f64, radius: f64, ink: u16) -> Self
        ensures { result ≡ lifted_circle x y radius ink }
    {
        Circle {
            center: Point::new(x, y),
            radius: Self::lift(radius),
            ink,
        }
    }

    pub fn center(self) -> Point
        ensures { result ≡ self.center }
    {
        self.center
    }

    pub fn radius(self) -> f64
        ensures { result ≡ self.radius }
    {
        self.radius
    }

    pub fn ink(self) -> u16
        ensures { result ≡ self.ink }
    {
        self.ink
    }

    // The circle at another centre. Every move goes through here, so its ink comes along.
    pub fn moved_to(mut self, x: f64, y: f64) -> Self
        ensures { result ≡ moved_to self x y }
    {
        self.center = Point::new(x, y);
        self.radius = Self::lift(self.radius);
        self
    }

    pub fn bounds(self) -> Bounds
        ensures { result ≡ circle_box self }
    {
        Bounds {
            x_min: self.center.x - self.radius,
            x_max: self.center.x + self.radius,
            y_min: self.center.y - self.radius,
            y_max: self.center.y + self.radius,
        }
    }
}
