// A point of the plane.
ghost use Rattle.std.specs.Prelude.{◌≡◌};
ghost use Rattle.shapes.specs.Records.{point_at};

#[repr(C)]
#[derive(Clone, Copy)]
pub struct Point {
    pub x: f64,
    pub y: f64,
}

impl Point {
    pub fn new(x: f64, y: f64) -> Self
        ensures { result ≡ point_at x y }
    {
        Point { x, y }
    }

    pub fn x(self) -> f64
        ensures { result ≡ self.x }
    {
        self.x
    }

    pub fn y(self) -> f64
        ensures { result ≡ self.y }
    {
        self.y
    }
}
