// The exports of `rundhefja::runs`, each with its clauses.
ghost use Rattle.std.specs.Prelude.{◌≡◌};
ghost use Rattle.scope.specs.Links.{regions};
ghost use Rattle.scope.specs.Groups.{plain_grouping, area_grouping};
ghost use Rattle.scope.specs.Packing.{skyline_pack};
ghost use Rattle.scope.specs.Container.{contained};
ghost use Rattle.scope.specs.Layout.{layout};
ghost use Rattle.scope.specs.CardStock.{card_stock};
ghost use Rattle.scope.specs.Touch.{touched};
ghost use Rattle.scope.specs.Promises.{Promises};
ghost use Rattle.promises.specs.Demand3.{bound};
ghost use Rattle.clustering.specs.Answers.{NumbersByChains};
ghost use Rattle.touch.specs.Answers.{touch_of};
ghost use Rattle.rundhefja.specs.Answers.{grouping_of, packing_of, placed_of, outcome_of, amount_of};

use rundhefja::answers::{Charge, Clusters, Laid, Packed, Placed};
use shapes::circle::Circle;
use shapes::point::Point;
use shapes::rectangle::Rectangle;

#[unsafe(no_mangle)]
pub extern "C" fn rundhefja_clusters(circles: &[Circle]) -> Clusters
    ensures { grouping_of result ≡ plain_grouping circles.now }
{
    rundhefja::runs::rundhefja_clusters(circles)
}

#[unsafe(no_mangle)]
pub extern "C" fn rundhefja_area_clusters(
    n: usize,
    masks: &[u64],
    areas: &[f64],
    tolerance: f64,
) -> Clusters
    ensures answer { grouping_of result ≡ area_grouping n masks.now areas.now tolerance }
    ensures chains { result.refusal ≡ 0 → NumbersByChains n tolerance (regions masks.now areas.now) result.numbers }
{
    rundhefja::runs::rundhefja_area_clusters(n, masks, areas, tolerance)
}

#[unsafe(no_mangle)]
pub extern "C" fn rundhefja_pack(rectangles: &[Rectangle], padding: f64, proportion: f64) -> Packed
    ensures { packing_of result ≡ skyline_pack rectangles.now padding proportion }
{
    rundhefja::runs::rundhefja_pack(rectangles, padding, proportion)
}

#[unsafe(no_mangle)]
pub extern "C" fn rundhefja_container(circles: &mut [Circle], container: Rectangle) -> Placed
    ensures { (result ≡ placed_of (contained circles.old container))
        × (circles.new ≡ (contained circles.old container).circles) }
{
    rundhefja::runs::rundhefja_container(circles, container)
}

#[unsafe(no_mangle)]
pub extern "C" fn rundhefja_layout(
    circles: &mut [Circle],
    factor: f64,
    masks: &[u64],
    areas: &[f64],
    proportion: f64,
) -> Laid
    ensures { (outcome_of result ≡ (layout circles.old factor masks.now areas.now proportion).result)
        × (circles.new ≡ (layout circles.old factor masks.now areas.now proportion).circles)
        × (result.refusal ≡ 0 → Promises bound circles.old (regions masks.now areas.now) (outcome_of result) circles.new) }
{
    rundhefja::runs::rundhefja_layout(circles, factor, masks, areas, proportion)
}

#[unsafe(no_mangle)]
pub extern "C" fn rundhefja_card_stock(
    circles: &[Circle],
    factor: f64,
    masks: &[u64],
    areas: &[f64],
    proportion: f64,
    cents: u64,
) -> Charge
    ensures { amount_of result ≡ card_stock circles.now factor masks.now areas.now proportion cents }
{
    rundhefja::runs::rundhefja_card_stock(circles, factor, masks, areas, proportion, cents)
}

#[unsafe(no_mangle)]
pub extern "C" fn rundhefja_touch_points(
    circles: &[Circle],
    points: &[Point],
    answers: &mut [u64],
) -> u8
    ensures { touch_of result answers.new ≡ touched circles.now points.now answers.old }
{
    rundhefja::runs::rundhefja_touch_points(circles, points, answers)
}
