// How much a call takes, and the ranges of its numbers. The ends of a range are inside it, and a NaN is in none.
ghost use Rattle.std.specs.Prelude.{◌≡◌, min};
ghost use Rattle.scope.specs.Limits.{coordinate_ok, side_ok};
ghost use Rattle.scope.specs.Refusals.{too_many, too_many_regions, too_many_points, bad_point, bad_centre, bad_radius, bad_factor, bad_side, bad_padding, bad_proportion, bad_price};
ghost use Rattle.intake.specs.Limits.{max_circles};

use shapes::circle::Circle;
use shapes::point::Point;
use shapes::rectangle::Rectangle;

pub const MAX_CIRCLES: usize = 64;

pub const MAX_REGIONS: usize = 2048;

// As many touch points as a batch may have.
pub const MAX_POINTS: usize = 1024;

// 2^20, the largest size of a coordinate.
pub(crate) const MAX_COORDINATE: f64 = 1048576.0;

// 2^23, the largest side.
pub(crate) const MAX_SIDE: f64 = 8388608.0;

// 2^26, the largest padding.
const MAX_PADDING: f64 = 67108864.0;

const MIN_PROPORTION: f64 = 0.25;

const MAX_PROPORTION: f64 = 4.0;

// In cents, from 1.
const MAX_PRICE: u64 = 100;

// The proportion of document 01, which `card` keeps.
pub const GOLDEN: f64 = 1.618;

// The smaller of n and 64.
pub fn room(n: usize) -> usize
    ensures { result ≡ min n max_circles }
{
    if n < MAX_CIRCLES { n } else { MAX_CIRCLES }
}

// Refusal 1.
pub fn too_many(n: usize) -> bool
    ensures { result ≡ too_many n }
{
    n > MAX_CIRCLES
}

// Refusal 2.
pub fn too_many_regions(n: usize) -> bool
    ensures { result ≡ too_many_regions n }
{
    n > MAX_REGIONS
}

// Refusal 18.
pub fn too_many_points(m: usize) -> bool
    ensures { result ≡ too_many_points m }
{
    m > MAX_POINTS
}

// Refusal 3.
pub(crate) fn bad_point(p: Point) -> bool
    ensures { result ≡ bad_point p }
{
    !(coordinate_in_range(p.x) && coordinate_in_range(p.y))
}

pub(crate) fn bad_centre(c: Circle) -> bool
    ensures { result ≡ bad_centre c }
{
    bad_point(c.center)
}

// Refusal 4.
pub(crate) fn bad_radius(c: Circle) -> bool
    ensures { result ≡ bad_radius c }
{
    !Circle::radius_in_range(c.radius)
}

fn coordinate_in_range(x: f64) -> bool
    ensures { result ≡ coordinate_ok x }
{
    -MAX_COORDINATE <= x && x <= MAX_COORDINATE
}

// Refusal 6.
pub fn bad_factor(x: f64) -> bool
    ensures { result ≡ bad_factor x }
{
    !(0.0 <= x && x <= 1.0)
}

// Refusal 7.
pub(crate) fn bad_side(r: Rectangle) -> bool
    ensures { result ≡ bad_side r }
{
    !(side_in_range(r.width) && side_in_range(r.height))
}

pub(crate) fn side_in_range(x: f64) -> bool
    ensures { result ≡ side_ok x }
{
    0.0 <= x && x <= MAX_SIDE
}

// Refusal 8.
pub fn bad_padding(x: f64) -> bool
    ensures { result ≡ bad_padding x }
{
    !(0.0 <= x && x <= MAX_PADDING)
}

// Refusal 16.
pub fn bad_proportion(x: f64) -> bool
    ensures { result ≡ bad_proportion x }
{
    !(MIN_PROPORTION <= x && x <= MAX_PROPORTION)
}

// Refusal 17.
pub fn bad_price(cents: u64) -> bool
    ensures { result ≡ bad_price cents }
{
    !(1 <= cents && cents <= MAX_PRICE)
}
