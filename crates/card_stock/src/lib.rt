// Card stock charged to the recipe: what the sheet of a finished layout costs, to the cent. What is laid out is a copy: the circles lent are only read.
#![tactic(auto)]

ghost use Rattle.std.specs.Prelude.{◌≡◌, ◌+◌, ◌^◌, ◌≤◌, ◌<◌, T, length};
ghost use Rattle.scope.specs.Limits.{price_ok};
ghost use Rattle.scope.specs.CardStock.{card_stock, sheet, started_hundreds, stock_for};
ghost use Rattle.scope.specs.Twins.{first_stock};
ghost use Rattle.card_stock.specs.Answers.{charge_of};
ghost use Rattle.card_stock.specs.Sheets.{SheetSmall};

use intake::blanks::blank;
use intake::checks::check_stock;
use intake::limits::{MAX_CIRCLES, too_many};
use layout::normalize::normalize_layout_with_clusters;
use packing::raised;
use refusals::{Refusal, refuse_if};
use shapes::bounds::Bounds;
use shapes::circle::Circle;

// What the sheet of a run's layout costs: the started hundreds of its square millimetres, at so many cents each. No circles cost 0.
// Refused: what the layout is refused for, and then a price outside 1 to 100 cents (17).
pub fn card_stock(
    circles: &[Circle],
    factor: f64,
    masks: &[u64],
    areas: &[f64],
    proportion: f64,
    cents: u64,
) -> Result<u64, Refusal>
    ensures { charge_of result ≡ card_stock circles.now factor masks.now areas.now proportion cents }
{
    check_stock(circles, factor, masks, areas, proportion, cents)?;
    let mut copy = [blank(); MAX_CIRCLES];
    let finished = &mut copy[..circles.len()];
    finished.copy_from_slice(circles);
    normalize_layout_with_clusters(finished, factor, masks, areas, proportion).unwrap();
    Ok(stock(finished, cents))
}

// The same of the first n circles of an array. The others are not looked at.
pub fn card_stock_by_value(
    circles: [Circle; MAX_CIRCLES],
    n: usize,
    factor: f64,
    masks: &[u64],
    areas: &[f64],
    proportion: f64,
    cents: u64,
) -> Result<u64, Refusal>
    ensures { charge_of result ≡ first_stock n circles factor masks.now areas.now proportion cents }
{
    refuse_if(too_many(n), Refusal::TooManyCircles)?;
    card_stock(&circles[..n], factor, masks, areas, proportion, cents)
}

// What the sheet of these circles costs.
fn stock(circles: &[Circle], cents: u64) -> u64
    requires { (0 < length circles.now → SheetSmall circles.now) × T (price_ok cents) }
    ensures { result ≡ stock_for circles.now cents }
{
    if circles.is_empty() {
        return 0;
    }
    let box_of_all = sheet(circles);
    let wide = raised(box_of_all.width());
    let tall = raised(box_of_all.height());
    started_hundreds(wide * tall) * cents
}

fn started_hundreds(area: u64) -> u64
    requires { area + 99 < 2 ^ 64 }
    ensures { result ≡ started_hundreds area }
{
    (area + 99) / 100
}

// The box of the circles.
fn sheet(circles: &[Circle]) -> Bounds
    ensures { result ≡ sheet circles.now }
{
    let infinity = 1.0 / 0.0;
    let mut b = Bounds::new(infinity, -infinity, infinity, -infinity);
    for c in circles {
        b = b.union(c.bounds());
    }
    b
}
