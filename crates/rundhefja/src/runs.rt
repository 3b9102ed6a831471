// Clustering, packing and layouts of the records that a caller lends, what the sheet of a layout costs, and the circles under touch points.
ghost use Rattle.std.specs.Prelude.{◌≡◌};
ghost use Rattle.scope.specs.Links.{regions};
ghost use Rattle.scope.specs.Groups.{plain_grouping, area_grouping};
ghost use Rattle.scope.specs.Packing.{skyline_pack};
ghost use Rattle.scope.specs.Container.{contained};
ghost use Rattle.scope.specs.Layout.{layout};
ghost use Rattle.scope.specs.CardStock.{card_stock};
ghost use Rattle.scope.specs.Touch.{touched};
ghost use Rattle.scope.specs.Promises.{Promises};
ghost use Rattle.promises.specs.Demand3.{bound};
ghost use Rattle.clustering.specs.Answers.{NumbersByChains};
ghost use Rattle.touch.specs.Answers.{touch_of};
ghost use Rattle.rundhefja.specs.Answers.{grouping_of, packing_of, placed_of, outcome_of, amount_of};

use crate::answers::{Charge, Clusters, Laid, Packed, Placed};
use card_stock::card_stock;
use clustering::{find_clusters, find_clusters_from_exclusive_regions};
use layout::container::normalize_layout_with_container;
use layout::normalize::normalize_layout_with_clusters;
use packing::skyline_pack;
use shapes::circle::Circle;
use shapes::point::Point;
use shapes::rectangle::Rectangle;
use touch::touch_points;

pub fn rundhefja_clusters(circles: &[Circle]) -> Clusters
    ensures { grouping_of result ≡ plain_grouping circles.now }
{
    find_clusters(circles).into()
}

pub fn rundhefja_area_clusters(n: usize, masks: &[u64], areas: &[f64], tolerance: f64) -> Clusters
    ensures answer { grouping_of result ≡ area_grouping n masks.now areas.now tolerance }
    ensures chains { result.refusal ≡ 0 → NumbersByChains n tolerance (regions masks.now areas.now) result.numbers }
{
    find_clusters_from_exclusive_regions(n, masks, areas, tolerance).into()
}

pub fn rundhefja_pack(rectangles: &[Rectangle], padding: f64, proportion: f64) -> Packed
    ensures { packing_of result ≡ skyline_pack rectangles.now padding proportion }
{
    skyline_pack(rectangles, padding, proportion).into()
}

pub fn rundhefja_container(circles: &mut [Circle], container: Rectangle) -> Placed
    ensures { (result ≡ placed_of (contained circles.old container))
        × (circles.new ≡ (contained circles.old container).circles) }
{
    match normalize_layout_with_container(circles, container) {
        Ok(placed) => Placed {
            refusal: 0,
            container: placed,
        },
        Err(refusal) => Placed {
            refusal: refusal.number(),
            container,
        },
    }
}

pub fn rundhefja_layout(
    circles: &mut [Circle],
    factor: f64,
    masks: &[u64],
    areas: &[f64],
    proportion: f64,
) -> Laid
    ensures { (outcome_of result ≡ (layout circles.old factor masks.now areas.now proportion).result)
        × (circles.new ≡ (layout circles.old factor masks.now areas.now proportion).circles)
        × (result.refusal ≡ 0 → Promises bound circles.old (regions masks.now areas.now) (outcome_of result) circles.new) }
{
    normalize_layout_with_clusters(circles, factor, masks, areas, proportion).into()
}

pub fn rundhefja_card_stock(
    circles: &[Circle],
    factor: f64,
    masks: &[u64],
    areas: &[f64],
    proportion: f64,
    cents: u64,
) -> Charge
    ensures { amount_of result ≡ card_stock circles.now factor masks.now areas.now proportion cents }
{
    card_stock(circles, factor, masks, areas, proportion, cents).into()
}

pub fn rundhefja_touch_points(circles: &[Circle], points: &[Point], answers: &mut [u64]) -> u8
    ensures { touch_of result answers.new ≡ touched circles.now points.now answers.old }
{
    match touch_points(circles, points, answers) {
        Ok(()) => 0,
        Err(refusal) => refusal.number(),
    }
}
