// The boxes of the clusters, an axis at a time, and the circles moved as the boxes are.
ghost use Rattle.std.specs.Prelude.{◌≡◌, ◌<◌, length};
ghost use Rattle.layout.specs.ClusterBoxes.{
  InClusters,
  lows_of,
  highs_of,
  middles_of,
  lengths_of,
  BoxLists,
  padding_for,
  shifted_by,
};
ghost use Rattle.layout.specs.Shown.{boxes_of, BoxRoom};

use crate::axis::middle;
use geometry::lengths::root_or_nan;
use shapes::extremes::{maximum, minimum};

// The boxes of the clusters: the coordinates of their centres, and their sides.
pub(crate) fn cluster_boxes(
    xs: &[f64],
    ys: &[f64],
    radii: &[f64],
    numbers: &[u8],
    across: &mut [f64],
    widths: &mut [f64],
    up: &mut [f64],
    heights: &mut [f64],
)
    requires { BoxRoom xs.now ys.now radii.now numbers.now across.old widths.old up.old heights.old }
    ensures { BoxLists (boxes_of (length across.old) numbers.now xs.now ys.now radii.now)
        across.new widths.new up.new heights.new }
{
    cluster_ranges(xs, radii, numbers, across, widths);
    cluster_ranges(ys, radii, numbers, up, heights);
    middles_and_lengths(across, widths);
    middles_and_lengths(up, heights);
}

// The range of each cluster's circles, in one pass over the circles. lows and highs have a place for each cluster.
pub(crate) fn cluster_ranges(
    coords: &[f64],
    radii: &[f64],
    numbers: &[u8],
    lows: &mut [f64],
    highs: &mut [f64],
)
    requires { (length radii.now ≡ length coords.now) × (length numbers.now ≡ length coords.now) × (length highs.old ≡ length lows.old)
        × InClusters (length lows.old) numbers.now }
    ensures low { lows.new ≡ lows_of (length lows.old) numbers.now coords.now radii.now }
    ensures high { highs.new ≡ highs_of (length lows.old) numbers.now coords.now radii.now }
{
    let infinity = 1.0 / 0.0;
    lows.fill(infinity);
    highs.fill(-infinity);
    for (i, &number) in numbers.iter().enumerate() {
        let a = usize::from(number);
        let x = coords[i];
        let radius = radii[i];
        lows[a] = minimum(lows[a], x - radius);
        highs[a] = maximum(highs[a], x + radius);
    }
}

// lows becomes the middles of the ranges, highs their lengths.
pub(crate) fn middles_and_lengths(lows: &mut [f64], highs: &mut [f64])
    requires { length highs.old ≡ length lows.old }
    ensures middles { lows.new ≡ middles_of lows.old highs.old }
    ensures lengths { highs.new ≡ lengths_of lows.old highs.old }
{
    for i in 0..lows.len() {
        let low = lows[i];
        let high = highs[i];
        lows[i] = middle(low, high);
        highs[i] = high - low;
    }
}

// The factor of the side of a square as large as all boxes together. One cluster alone needs none.
pub(crate) fn padding_of(widths: &[f64], heights: &[f64], factor: f64) -> f64
    requires { length heights.now ≡ length widths.now }
    ensures { result ≡ padding_for widths.now heights.now factor }
{
    if widths.len() < 2 {
        return 0.0;
    }
    let mut sum = 0.0;
    for (&width, &height) in widths.iter().zip(heights) {
        sum += width * height;
    }
    root_or_nan(sum) * factor
}

// Each circle moves as the middle of its cluster does, from olds to news.
pub(crate) fn shift(coords: &mut [f64], numbers: &[u8], olds: &[f64], news: &[f64])
    requires { (length numbers.now ≡ length coords.old) × (length news.now ≡ length olds.now) × InClusters (length olds.now) numbers.now }
    ensures { coords.new ≡ shifted_by numbers.now olds.now news.now coords.old }
{
    for (i, x) in coords.iter_mut().enumerate() {
        let a = usize::from(numbers[i]);
        *x += news[a] - olds[a];
    }
}
