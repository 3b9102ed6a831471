// The whole layout: children moved off their parents' centres, each cluster turned and mirrored, the clusters packed, all of it centred.
ghost use Rattle.std.specs.Prelude.{◌≡◌, ◌≤◌, T, length, take, IfOk, OnOk};
ghost use Rattle.scope.specs.Limits.{proportion_ok};
ghost use Rattle.scope.specs.Links.{regions};
ghost use Rattle.scope.specs.Tolerance.{tolerance};
ghost use Rattle.scope.specs.Padding.{boxes, padding};
ghost use Rattle.scope.specs.Layout.{layout};
ghost use Rattle.scope.specs.Promises.{Promises};
ghost use Rattle.scope.specs.Twins.{first_layout};
ghost use Rattle.laws.specs.Limits.{WithinLimits};
ghost use Rattle.promises.specs.Demand3.{bound, AreDoubles};
ghost use Rattle.intake.specs.Limits.{max_circles};
ghost use Rattle.intake.specs.Columns.{circles_of};
ghost use Rattle.layout.specs.Answers.{outcome_of, laid_out, first_laid};
ghost use Rattle.layout.specs.Laid.{packed_clusters, settled_clusters};
ghost use Rattle.layout.specs.Shown.{Become, gauged_of, arranged_of, boxes_of, ToPack};

use crate::axis::center_layout;
use crate::boxes::{cluster_boxes, padding_of, shift};
use crate::gauge::gauged_clusters;
use crate::lent::join;
use crate::offset::offset_contained_children;
use crate::regions::Regions;
use clustering::{find_clusters_from_exclusive_regions, tolerance};
use intake::arrays::Columns;
use intake::checks::check_layout;
use intake::limits::{MAX_CIRCLES, too_many};
use packing::pack_sides;
use refusals::{Refusal, refuse_if};
use shapes::circle::Circle;

// How the circles are arranged: how many clusters, each circle's cluster, the mask of the moved circles, and the padding. Numbers that are
// not used are 0.
#[derive(Clone, Copy)]
pub struct Arrangement {
    pub count: usize,
    pub numbers: [u8; MAX_CIRCLES],
    pub moved: u64,
    pub padding: f64,
}

// Rewrites the centres of a lent run. A refused run is not written to.
// Refused: too many circles (1), lists of unequal length (13), too many regions (2), a centre (3), a radius (4), masks that do not rise
// (5), the factor (6), two circles of one ink (14), the proportion (16).
pub fn normalize_layout_with_clusters(
    circles: &mut [Circle],
    factor: f64,
    masks: &[u64],
    areas: &[f64],
    proportion: f64,
) -> Result<Arrangement, Refusal>
    ensures answer { laid_out result circles.new ≡ layout circles.old factor masks.now areas.now proportion }
    ensures promises { IfOk result (λ a. Promises bound circles.old (regions masks.now areas.now) (outcome_of a) circles.new) }
    ensures doubles { OnOk result (AreDoubles circles.old factor) }
{
    check_layout(circles, factor, masks, areas, proportion)?;
    let Columns {
        n,
        mut xs,
        mut ys,
        radii,
    } = Columns::of(circles);
    let xs = &mut xs[..n];
    let ys = &mut ys[..n];
    let arrangement = arranged(xs, ys, &radii[..n], factor, masks, areas, proportion);
    join(circles, xs, ys);
    Ok(arrangement)
}

// How the first circles of an array are arranged, and the array as it then is.
#[derive(Clone, Copy)]
pub struct Layout {
    pub arrangement: Arrangement,
    pub circles: [Circle; MAX_CIRCLES],
}

// The same of the first n circles of an array. The others are not looked at, and stay.
pub fn normalize_layout_with_clusters_by_value(
    circles: [Circle; MAX_CIRCLES],
    n: usize,
    factor: f64,
    masks: &[u64],
    areas: &[f64],
    proportion: f64,
) -> Result<Layout, Refusal>
    ensures answer { first_laid circles result ≡ first_layout n circles factor masks.now areas.now proportion }
    ensures promises { IfOk result (λ l. Promises bound (take n circles) (regions masks.now areas.now)
        (outcome_of l.arrangement) (take n l.circles)) }
{
    refuse_if(too_many(n), Refusal::TooManyCircles)?;
    let mut placed = circles;
    let arrangement = normalize_layout_with_clusters(
        &mut placed[..n],
        factor,
        masks,
        areas,
        proportion,
    )?;
    Ok(Layout {
        arrangement,
        circles: placed,
    })
}

// ---- the steps, one after the other. Clusters go by the regions' areas and not by how the circles lie: where two circles nearly coincide
// or touch, rounding decides how they lie, and the areas are what the circles were fitted to.

fn arranged(
    xs: &mut [f64],
    ys: &mut [f64],
    radii: &[f64],
    factor: f64,
    masks: &[u64],
    areas: &[f64],
    proportion: f64,
) -> Arrangement
    requires { (length xs.old ≤ max_circles) × (length ys.old ≡ length xs.old) × (length radii.now ≡ length xs.old)
        × WithinLimits (circles_of xs.old ys.old radii.now) factor masks.now areas.now × T (proportion_ok proportion) }
    ensures result { outcome_of result
        ≡ (arranged_of xs.old ys.old radii.now factor masks.now areas.now proportion).result }
    ensures circles { circles_of xs.new ys.new radii.now
        ≡ (arranged_of xs.old ys.old radii.now factor masks.now areas.now proportion).circles }
    ensures doubles { AreDoubles (circles_of xs.old ys.old radii.now) factor }
{
    let n = xs.len();
    let tol = tolerance(areas);
    let moved = offset_contained_children(xs, ys, radii, &Regions { masks, areas }, tol);
    let clusters = find_clusters_from_exclusive_regions(n, masks, areas, tol).unwrap();
    let numbers = clusters.numbers;
    let padding = placed(
        xs,
        ys,
        radii,
        &numbers[0..n],
        clusters.count,
        factor,
        proportion,
    );
    Arrangement {
        count: clusters.count,
        numbers,
        moved,
        padding,
    }
}

// Each cluster turned, the clusters packed, the whole centred; the padding between them.
fn placed(
    xs: &mut [f64],
    ys: &mut [f64],
    radii: &[f64],
    numbers: &[u8],
    count: usize,
    factor: f64,
    proportion: f64,
) -> f64
    requires { ToPack count numbers.now factor proportion xs.old ys.old radii.now (gauged_of count numbers.now xs.old ys.old radii.now) }
    ensures padding { result ≡ padding (boxes count numbers.now
        (gauged_of count numbers.now xs.old ys.old radii.now)) factor }
    ensures circles { circles_of xs.new ys.new radii.now
        ≡ settled_clusters proportion count numbers.now factor
        (gauged_of count numbers.now xs.old ys.old radii.now) }
{
    gauged_clusters(xs, ys, numbers, count);
    let padding = pack_clusters(xs, ys, radii, numbers, count, factor, proportion);
    center_layout(xs, ys, radii);
    padding
}

// The clusters in the grid, each circle moved as its cluster's box is. One cluster alone stays where it is.
fn pack_clusters(
    xs: &mut [f64],
    ys: &mut [f64],
    radii: &[f64],
    numbers: &[u8],
    count: usize,
    factor: f64,
    proportion: f64,
) -> f64
    requires { ToPack count numbers.now factor proportion xs.old ys.old radii.now (circles_of xs.old ys.old radii.now) }
    ensures padding { result ≡ padding (boxes_of count numbers.now xs.old ys.old radii.now) factor }
    ensures circles { Become (packed_clusters proportion count numbers.now factor)
        xs.old ys.old radii.now xs.new ys.new }
{
    if count < 2 {
        return 0.0;
    }
    let mut across = [0.0; MAX_CIRCLES];
    let mut widths = [0.0; MAX_CIRCLES];
    let mut up = [0.0; MAX_CIRCLES];
    let mut heights = [0.0; MAX_CIRCLES];
    cluster_boxes(
        xs,
        ys,
        radii,
        numbers,
        &mut across[..count],
        &mut widths[..count],
        &mut up[..count],
        &mut heights[..count],
    );
    let padding = padding_of(&widths[..count], &heights[..count], factor);
    let mut new_xs = [0.0; MAX_CIRCLES];
    let mut new_ys = [0.0; MAX_CIRCLES];
    pack_sides(
        &widths,
        &heights,
        count,
        padding,
        proportion,
        &mut new_xs,
        &mut new_ys,
    )
    .unwrap();
    shift(xs, numbers, &across, &new_xs);
    shift(ys, numbers, &up, &new_ys);
    padding
}
