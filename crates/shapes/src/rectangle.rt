// A rectangle with sides along the axes.
ghost use Rattle.std.specs.Prelude.{◌≡◌};
ghost use Rattle.shapes.specs.Records.{rectangle_of};
ghost use Rattle.shapes.specs.Boxes.{rectangle_box};

use crate::bounds::Bounds;
use crate::point::Point;

#[repr(C)]
#[derive(Clone, Copy)]
pub struct Rectangle {
    pub center: Point,
    pub width: f64,
    pub height: f64,
}

impl Rectangle {
    pub fn new(center: Point, width: f64, height: f64) -> Self
        ensures { result ≡ rectangle_of center width height }
    {
        Rectangle {
            center,
            width,
            height,
        }
    }

    pub fn center(self) -> Point
        ensures { result ≡ self.center }
    {
        self.center
    }

    pub fn width(self) -> f64
        ensures { result ≡ self.width }
    {
        self.width
    }

    pub fn height(self) -> f64
        ensures { result ≡ self.height }
    {
        self.height
    }

    pub fn bounds(self) -> Bounds
        ensures { result ≡ rectangle_box self }
    {
        let half_width = self.width / 2.0;
        let half_height = self.height / 2.0;
        Bounds {
            x_min: self.center.x - half_width,
            x_max: self.center.x + half_width,
            y_min: self.center.y - half_height,
            y_max: self.center.y + half_height,
        }
    }
}
