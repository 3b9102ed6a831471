// A box with sides along the axes. A box of no width or no height is allowed.
ghost use Rattle.std.specs.Prelude.{◌≡◌};
ghost use Rattle.shapes.specs.Records.{box_of};
ghost use Rattle.shapes.specs.Boxes.{width_of, height_of, area_of, corners_of, union_of, overlap_of};

use crate::extremes::{maximum, minimum};
use crate::point::Point;

#[repr(C)]
#[derive(Clone, Copy)]
pub struct Bounds {
    pub x_min: f64,
    pub x_max: f64,
    pub y_min: f64,
    pub y_max: f64,
}

#[repr(C)]
#[derive(Clone, Copy)]
pub struct Corners {
    pub bottom_left: Point,
    pub top_right: Point,
}

impl Bounds {
    pub fn new(x_min: f64, x_max: f64, y_min: f64, y_max: f64) -> Self
        ensures { result ≡ box_of x_min x_max y_min y_max }
    {
        Bounds {
            x_min,
            x_max,
            y_min,
            y_max,
        }
    }

    pub fn width(self) -> f64
        ensures { result ≡ width_of self }
    {
        self.x_max - self.x_min
    }

    pub fn height(self) -> f64
        ensures { result ≡ height_of self }
    {
        self.y_max - self.y_min
    }

    pub fn area(self) -> f64
        ensures { result ≡ area_of self }
    {
        self.width() * self.height()
    }

    pub fn to_points(self) -> Corners
        ensures { result ≡ corners_of self }
    {
        Corners {
            bottom_left: Point::new(self.x_min, self.y_min),
            top_right: Point::new(self.x_max, self.y_max),
        }
    }

    // The smallest box that holds both.
    pub fn union(self, other: Bounds) -> Bounds
        ensures { result ≡ union_of self other }
    {
        Bounds {
            x_min: minimum(self.x_min, other.x_min),
            x_max: maximum(self.x_max, other.x_max),
            y_min: minimum(self.y_min, other.y_min),
            y_max: maximum(self.y_max, other.y_max),
        }
    }

    // What two boxes share, if anything: boxes that only touch share nothing.
    pub fn intersection(self, other: Bounds) -> Option<Bounds>
        ensures { result ≡ overlap_of self other }
    {
        let x_min = maximum(self.x_min, other.x_min);
        let x_max = minimum(self.x_max, other.x_max);
        let y_min = maximum(self.y_min, other.y_min);
        let y_max = minimum(self.y_max, other.y_max);
        if x_min < x_max && y_min < y_max {
            Some(Bounds {
                x_min,
                x_max,
                y_min,
                y_max,
            })
        } else {
            None
        }
    }
}
