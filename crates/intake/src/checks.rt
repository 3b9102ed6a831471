// What each call checks, cause by cause in the order of document 01's table: the first that holds is the refusal.
ghost use Rattle.std.specs.Prelude.{◌≡◌, not, cond, List, [], Float, length, ◌≤◌};
ghost use Rattle.scope.specs.Runs.{any};
ghost use Rattle.scope.specs.Limits.{side_ok};
ghost use Rattle.scope.specs.Refusals.{
  points_refusal,
  pair_refusal,
  circle_point_refusal,
  columns_refusal,
  regions_refusal,
  circles_refusal,
  container_refusal,
  card_refusal,
  layout_refusal,
  stock_refusal,
  touch_refusal,
  too_many,
  bad_point,
  bad_centre,
  bad_radius,
  rising,
  repeated,
  same_ink,
};
ghost use Rattle.intake.specs.Limits.{max_circles};
ghost use Rattle.refusals.specs.Numbers.{number_if};

use crate::limits::{
    MAX_CIRCLES, bad_centre, bad_factor, bad_point, bad_price, bad_proportion, bad_radius,
    bad_side, side_in_range, too_many, too_many_points, too_many_regions,
};
use refusals::{Refusal, refuse_first, refuse_if};
use shapes::circle::Circle;
use shapes::point::Point;
use shapes::rectangle::Rectangle;

// ---- points and circles

pub fn check_points(p: Point, q: Point) -> Result<(), Refusal>
    ensures { number_if result ≡ points_refusal p q }
{
    refuse_first(&[
        (bad_point(p), Refusal::BadCoordinate),
        (bad_point(q), Refusal::BadCoordinate),
    ])
}

pub fn check_pair(a: Circle, b: Circle) -> Result<(), Refusal>
    ensures { number_if result ≡ pair_refusal a b }
{
    refuse_first(&[
        (bad_centre(a), Refusal::BadCoordinate),
        (bad_centre(b), Refusal::BadCoordinate),
        (bad_radius(a), Refusal::BadRadius),
        (bad_radius(b), Refusal::BadRadius),
    ])
}

pub fn check_circle_and_point(c: Circle, p: Point) -> Result<(), Refusal>
    ensures { number_if result ≡ circle_point_refusal c p }
{
    refuse_first(&[
        (bad_centre(c), Refusal::BadCoordinate),
        (bad_point(p), Refusal::BadCoordinate),
        (bad_radius(c), Refusal::BadRadius),
    ])
}

// ---- runs and lists

pub fn check_columns(k: usize, proportion: f64) -> Result<(), Refusal>
    ensures { number_if result ≡ columns_refusal k proportion }
{
    refuse_first(&[
        (too_many(k), Refusal::TooManyCircles),
        (bad_proportion(proportion), Refusal::BadProportion),
    ])
}

pub fn check_regions(n: usize, masks: &[u64], areas: &[f64]) -> Result<(), Refusal>
    ensures { number_if result ≡ regions_refusal n masks.now areas.now }
{
    refuse_first(&[
        (too_many(n), Refusal::TooManyCircles),
        (masks.len() != areas.len(), Refusal::UnequalLists),
        (too_many_regions(masks.len()), Refusal::TooManyRegions),
        (!is_rising(masks), Refusal::MasksNotRising),
    ])
}

pub fn check_circles(circles: &[Circle]) -> Result<(), Refusal>
    ensures { number_if result ≡ circles_refusal circles.now }
{
    let seen = looked_at(circles);
    refuse_first(&[
        (too_many(circles.len()), Refusal::TooManyCircles),
        (any_centre(seen), Refusal::BadCoordinate),
        (any_radius(seen), Refusal::BadRadius),
        (any_ink_twice(seen), Refusal::RepeatedInk),
    ])
}

pub fn check_container(circles: &[Circle], container: Rectangle) -> Result<(), Refusal>
    ensures { number_if result ≡ container_refusal circles.now container }
{
    let seen = looked_at(circles);
    refuse_first(&[
        (too_many(circles.len()), Refusal::TooManyCircles),
        (any_centre(seen), Refusal::BadCoordinate),
        (bad_point(container.center), Refusal::BadCoordinate),
        (any_radius(seen), Refusal::BadRadius),
        (bad_side(container), Refusal::BadSide),
        (any_ink_twice(seen), Refusal::RepeatedInk),
    ])
}

pub fn check_touch(circles: &[Circle], points: &[Point], answers: usize) -> Result<(), Refusal>
    ensures { number_if result ≡ touch_refusal circles.now points.now (length points.now) answers }
{
    let seen = looked_at(circles);
    refuse_first(&[
        (too_many(circles.len()), Refusal::TooManyCircles),
        (any_centre(seen), Refusal::BadCoordinate),
        (any_point(points), Refusal::BadCoordinate),
        (any_radius(seen), Refusal::BadRadius),
        (any_ink_twice(seen), Refusal::RepeatedInk),
        (too_many_points(points.len()), Refusal::TooManyPoints),
        (answers < points.len(), Refusal::TooFewAnswers),
    ])
}

// The values of a card. Of the list beside the masks, its length alone counts here: any area will do.
pub fn check_card(
    circles: &[Circle],
    factor: f64,
    masks: &[u64],
    areas: usize,
) -> Result<(), Refusal>
    ensures { (list : List Float) → length list ≡ areas → number_if result ≡ card_refusal circles.now factor masks.now list }
{
    let seen = looked_at(circles);
    let rising = is_rising(masks);
    refuse_first(&[
        (too_many(circles.len()), Refusal::TooManyCircles),
        (masks.len() != areas, Refusal::UnequalLists),
        (too_many_regions(masks.len()), Refusal::TooManyRegions),
        (any_centre(seen), Refusal::BadCoordinate),
        (any_radius(seen), Refusal::BadRadius),
        (!rising, Refusal::MasksNotRising),
        (bad_factor(factor), Refusal::BadFactor),
        (any_ink_twice(seen), Refusal::RepeatedInk),
    ])
}

// A card's values, then the proportion.
pub fn check_layout(
    circles: &[Circle],
    factor: f64,
    masks: &[u64],
    areas: &[f64],
    proportion: f64,
) -> Result<(), Refusal>
    ensures { number_if result ≡ layout_refusal circles.now factor masks.now areas.now proportion }
{
    check_card(circles, factor, masks, areas.len())?;
    refuse_if(bad_proportion(proportion), Refusal::BadProportion)
}

// A layout's values, then the price.
pub fn check_stock(
    circles: &[Circle],
    factor: f64,
    masks: &[u64],
    areas: &[f64],
    proportion: f64,
    cents: u64,
) -> Result<(), Refusal>
    ensures { number_if result ≡ stock_refusal circles.now factor masks.now areas.now proportion cents }
{
    check_layout(circles, factor, masks, areas, proportion)?;
    refuse_if(bad_price(cents), Refusal::BadPrice)
}

// ---- the tests of a list

// The circles that are tested: of more than there may be none, since the count decides.
fn looked_at(circles: &[Circle]) -> &[Circle]
    ensures all { result.now ≡ cond (too_many (length circles.now)) [] circles.now }
    ensures few { length result.now ≤ max_circles }
{
    if too_many(circles.len()) {
        &circles[..0]
    } else {
        circles
    }
}

// Whether a number of the list is no side.
pub fn any_bad_side(sides: &[f64]) -> bool
    ensures { result ≡ any (λ x. not (side_ok x)) sides.now }
{
    sides.iter().any(|x| !side_in_range(*x))
}

fn any_point(points: &[Point]) -> bool
    ensures { result ≡ any bad_point points.now }
{
    points.iter().any(|p| bad_point(*p))
}

fn any_centre(circles: &[Circle]) -> bool
    ensures { result ≡ any bad_centre circles.now }
{
    circles.iter().any(|c| bad_centre(*c))
}

fn any_radius(circles: &[Circle]) -> bool
    ensures { result ≡ any bad_radius circles.now }
{
    circles.iter().any(|c| bad_radius(*c))
}

// Whether each mask is below the next.
fn is_rising(masks: &[u64]) -> bool
    ensures { result ≡ rising masks.now }
{
    masks.is_sorted_by(|a, b| a < b)
}

// Whether two circles have one ink: each is looked for among those after it.
fn any_ink_twice(circles: &[Circle]) -> bool
    requires { length circles.now ≤ max_circles }
    ensures { result ≡ same_ink circles.now }
{
    let mut inks = [0u16; MAX_CIRCLES];
    for (i, c) in circles.iter().enumerate() {
        inks[i] = c.ink;
    }
    any_repeated(&inks[..circles.len()])
}

fn any_repeated(inks: &[u16]) -> bool
    ensures { result ≡ repeated inks.now }
{
    let mut rest = inks;
    while let Some((ink, after)) = rest.split_first() {
        if after.contains(ink) {
            return true;
        }
        rest = after;
    }
    false
}
