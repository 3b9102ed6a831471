// Records as columns of their numbers, each in the front of an array, with zeros behind: what the steps of a layout work on. Of more records than there may be,
// the first 64.
ghost use Rattle.std.specs.Prelude.{◌≡◌, ◌≤◌, length, take};
ghost use Rattle.intake.specs.Limits.{max_circles};
ghost use Rattle.intake.specs.Columns.{xs_of, ys_of, radii_of, widths_of, heights_of, NoughtFrom};

use crate::limits::{MAX_CIRCLES, room};
use shapes::circle::Circle;
use shapes::rectangle::Rectangle;

// n circles: their centres' x, their centres' y, their radii. No step looks at an ink.
#[derive(Drop)]
pub struct Columns {
    pub n: usize,
    pub xs: [f64; MAX_CIRCLES],
    pub ys: [f64; MAX_CIRCLES],
    pub radii: [f64; MAX_CIRCLES],
}

impl Columns {
    pub fn of(circles: &[Circle]) -> Self
        ensures n { result.n ≡ length (take max_circles circles.now) }
        ensures few { result.n ≤ max_circles }
        ensures x { take result.n result.xs ≡ xs_of (take max_circles circles.now) }
        ensures y { take result.n result.ys ≡ ys_of (take max_circles circles.now) }
        ensures radius { take result.n result.radii ≡ radii_of (take max_circles circles.now) }
        ensures behind { NoughtFrom result.n result.xs × NoughtFrom result.n result.ys × NoughtFrom result.n result.radii }
    {
        let n = room(circles.len());
        let mut columns = Columns {
            n,
            xs: [0.0; MAX_CIRCLES],
            ys: [0.0; MAX_CIRCLES],
            radii: [0.0; MAX_CIRCLES],
        };
        for (i, c) in circles[..n].iter().enumerate() {
            columns.xs[i] = c.center.x;
            columns.ys[i] = c.center.y;
            columns.radii[i] = c.radius;
        }
        columns
    }
}

// n boxes: their widths and heights.
#[derive(Drop)]
pub struct Sides {
    pub n: usize,
    pub widths: [f64; MAX_CIRCLES],
    pub heights: [f64; MAX_CIRCLES],
}

impl Sides {
    pub fn of(rectangles: &[Rectangle]) -> Self
        ensures n { result.n ≡ length (take max_circles rectangles.now) }
        ensures few { result.n ≤ max_circles }
        ensures width { take result.n result.widths ≡ widths_of (take max_circles rectangles.now) }
        ensures height { take result.n result.heights ≡ heights_of (take max_circles rectangles.now) }
        ensures behind { NoughtFrom result.n result.widths × NoughtFrom result.n result.heights }
    {
        let n = room(rectangles.len());
        let mut widths = [0.0; MAX_CIRCLES];
        let mut heights = [0.0; MAX_CIRCLES];
        for (i, r) in rectangles[..n].iter().enumerate() {
            widths[i] = r.width;
            heights[i] = r.height;
        }
        Sides { n, widths, heights }
    }
}
