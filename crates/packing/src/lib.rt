// Boxes in a grid whose width and height are near a proportion given with the call: the largest first, row by row.
// The sides of the boxes stand in two lists, and so do the places that their centres come to.
#![tactic(auto)]

ghost use Rattle.std.specs.Prelude.{◌≡◌, ◌<◌, ◌≤◌, ◌&&◌, ◌||◌, T, cond, length, nat_lt};
ghost use Rattle.std.specs.Float.{nan};
ghost use Rattle.std.specs.Float.Ieee.{eq};
ghost use Rattle.scope.specs.Numbers.{◌<ᶠ◌, ◌*ᶠ◌, nought, golden};
ghost use Rattle.scope.specs.Runs.{tab, filled};
ghost use Rattle.scope.specs.Limits.{circle_cap, proportion_ok};
ghost use Rattle.scope.specs.Refusals.{too_many};
ghost use Rattle.scope.specs.Packing.{
  no_rectangle,
  columns,
  columns_answer,
  place,
  breadth,
  start,
  centred,
  placed,
  skyline_pack,
};
ghost use Rattle.scope.specs.Twins.{first_packing};
ghost use Rattle.refusals.specs.Numbers.{number_if, answer_of};
ghost use Rattle.intake.specs.Limits.{max_circles};
ghost use Rattle.intake.specs.Columns.{at};
ghost use Rattle.packing.specs.Answers.{packed_boxes};
ghost use Rattle.packing.specs.Sides.{sides_number, packed_xs, packed_ys, unless_refused, box_at};
ghost use Rattle.packing.specs.Raised.{raised_word};
ghost use Rattle.packing.specs.Lists.{At, Lined, InLines, line_of};

use geometry::lengths::root_or_nan;
use intake::arrays::Sides;
use intake::checks::{any_bad_side, check_columns};
use intake::limits::{GOLDEN, MAX_CIRCLES, bad_padding, bad_proportion, too_many};
use refusals::{Refusal, refuse_first, refuse_if};
use shapes::extremes::maximum;
use shapes::point::Point;
use shapes::rectangle::Rectangle;
use std::num::truncating_f64_to_u64;

// No boxes have 0 columns. Refused: too many boxes (1), the proportion (16).
pub fn columns(k: usize, proportion: f64) -> Result<usize, Refusal>
    ensures { answer_of result ≡ columns_answer k proportion }
{
    check_columns(k, proportion)?;
    Ok(columns_of(k, proportion))
}

// The boxes in the order given, moved. Of a box only the sides are looked at, and what is not used is 0.
// Refused: too many boxes (1), a side (7), the padding (8), the proportion (16).
pub fn skyline_pack(
    rectangles: &[Rectangle],
    padding: f64,
    proportion: f64,
) -> Result<[Rectangle; MAX_CIRCLES], Refusal>
    ensures { packed_boxes result ≡ skyline_pack rectangles.now padding proportion }
{
    let n = rectangles.len();
    let sides = Sides::of(rectangles);
    let mut xs = [0.0; MAX_CIRCLES];
    let mut ys = [0.0; MAX_CIRCLES];
    pack_sides(
        &sides.widths,
        &sides.heights,
        n,
        padding,
        proportion,
        &mut xs,
        &mut ys,
    )?;
    Ok(boxes_at(&sides.widths, &sides.heights, &xs, &ys, n))
}

// The same of the first n boxes of an array. The others are not looked at.
pub fn skyline_pack_by_value(
    rectangles: [Rectangle; MAX_CIRCLES],
    n: usize,
    padding: f64,
    proportion: f64,
) -> Result<[Rectangle; MAX_CIRCLES], Refusal>
    ensures { packed_boxes result ≡ first_packing n rectangles padding proportion }
{
    refuse_if(too_many(n), Refusal::TooManyCircles)?;
    skyline_pack(&rectangles[..n], padding, proportion)
}

// What stands where there is no box.
fn no_rectangle() -> Rectangle
    ensures { result ≡ no_rectangle }
{
    Rectangle {
        center: Point { x: 0.0, y: 0.0 },
        width: 0.0,
        height: 0.0,
    }
}

// n boxes of these sides and centres, and none behind them.
fn boxes_at(
    widths: &[f64; MAX_CIRCLES],
    heights: &[f64; MAX_CIRCLES],
    xs: &[f64; MAX_CIRCLES],
    ys: &[f64; MAX_CIRCLES],
    n: usize,
) -> [Rectangle; MAX_CIRCLES]
    requires { n ≤ max_circles }
    ensures { result ≡ filled circle_cap no_rectangle (tab n (box_at xs.now ys.now widths.now heights.now)) }
{
    let mut boxes = [no_rectangle(); MAX_CIRCLES];
    for i in 0..n {
        boxes[i] = Rectangle {
            center: Point { x: xs[i], y: ys[i] },
            width: widths[i],
            height: heights[i],
        };
    }
    boxes
}

// Where the centres of n boxes come to stand, by their sides.
// Refused, and then nothing is written: too many boxes (1), a side (7), the padding (8), the proportion (16).
pub fn pack_sides(
    widths: &[f64; MAX_CIRCLES],
    heights: &[f64; MAX_CIRCLES],
    n: usize,
    padding: f64,
    proportion: f64,
    xs: &mut [f64; MAX_CIRCLES],
    ys: &mut [f64; MAX_CIRCLES],
) -> Result<(), Refusal>
    ensures number { number_if result ≡ sides_number n widths.now heights.now padding proportion }
    ensures x { xs.new ≡ unless_refused (number_if result) (packed_xs n widths.now heights.now padding proportion) xs.old }
    ensures y { ys.new ≡ unless_refused (number_if result) (packed_ys n widths.now heights.now padding proportion) ys.old }
{
    check_sides(widths, heights, n, padding, proportion)?;
    in_grid(
        &widths[..n],
        &heights[..n],
        padding,
        proportion,
        &mut xs[..n],
        &mut ys[..n],
    );
    Ok(())
}

fn check_sides(
    widths: &[f64; MAX_CIRCLES],
    heights: &[f64; MAX_CIRCLES],
    n: usize,
    padding: f64,
    proportion: f64,
) -> Result<(), Refusal>
    ensures { number_if result ≡ sides_number n widths.now heights.now padding proportion }
{
    let m = looked_at(n);
    refuse_first(&[
        (too_many(n), Refusal::TooManyCircles),
        (any_bad_side(&widths[..m]), Refusal::BadSide),
        (any_bad_side(&heights[..m]), Refusal::BadSide),
        (bad_padding(padding), Refusal::BadPadding),
        (bad_proportion(proportion), Refusal::BadProportion),
    ])
}

// How many of n boxes are tested: of more than there may be none, since the count decides.
fn looked_at(n: usize) -> usize
    ensures all { result ≡ cond (too_many n) 0 n }
    ensures few { result ≤ max_circles }
{
    if too_many(n) { 0 } else { n }
}

// ---- the grid, over lists of one length

fn in_grid(
    widths: &[f64],
    heights: &[f64],
    padding: f64,
    proportion: f64,
    xs: &mut [f64],
    ys: &mut [f64],
)
    requires { (length widths.now ≤ max_circles) × (length heights.now ≡ length widths.now)
        × (length xs.old ≡ length widths.now) × (length ys.old ≡ length widths.now) × T (proportion_ok proportion) }
    ensures x { xs.new ≡ packed_xs (length widths.now) widths.now heights.now padding proportion }
    ensures y { ys.new ≡ packed_ys (length widths.now) widths.now heights.now padding proportion }
{
    let k = widths.len();
    let mut areas = [0.0; MAX_CIRCLES];
    let mut columns = [0usize; MAX_CIRCLES];
    let mut rows = [0usize; MAX_CIRCLES];
    let mut breadths = [0.0; MAX_CIRCLES];
    let mut cells = [0.0; MAX_CIRCLES];
    on_axes(
        widths,
        heights,
        padding,
        proportion,
        xs,
        ys,
        &mut areas[0..k],
        &mut columns[0..k],
        &mut rows[0..k],
        &mut breadths[0..k],
        &mut cells[0..k],
    );
}

// What follows ys is room to work in.
fn on_axes(
    widths: &[f64],
    heights: &[f64],
    padding: f64,
    proportion: f64,
    xs: &mut [f64],
    ys: &mut [f64],
    areas: &mut [f64],
    columns: &mut [usize],
    rows: &mut [usize],
    breadths: &mut [f64],
    cells: &mut [f64],
)
    requires { (length widths.now ≤ max_circles) × (length heights.now ≡ length widths.now)
        × (length xs.old ≡ length widths.now) × (length ys.old ≡ length widths.now)
        × ((length areas.old ≡ length widths.now) × (length columns.old ≡ length widths.now) × (length rows.old ≡ length widths.now)
        × (length breadths.old ≡ length widths.now) × (length cells.old ≡ length widths.now)) × T (proportion_ok proportion) }
    ensures x { xs.new ≡ packed_xs (length widths.now) widths.now heights.now padding proportion }
    ensures y { ys.new ≡ packed_ys (length widths.now) widths.now heights.now padding proportion }
{
    areas_of(widths, heights, areas);
    lines_of(areas, proportion, columns, rows);
    axis(widths, columns, padding, xs, breadths, cells);
    axis(heights, rows, padding, ys, breadths, cells);
}

fn areas_of(widths: &[f64], heights: &[f64], areas: &mut [f64])
    requires { (length heights.now ≡ length widths.now) × (length areas.old ≡ length widths.now) }
    ensures { At (length widths.now) areas.new nan (λ i. at widths.now i *ᶠ at heights.now i) }
{
    for (i, area) in areas.iter_mut().enumerate() {
        *area = widths[i] * heights[i];
    }
}

// The column and the row of each box, by its place among the boxes.
fn lines_of(areas: &[f64], proportion: f64, columns: &mut [usize], rows: &mut [usize])
    requires { (length areas.now ≤ max_circles) × (length columns.old ≡ length areas.now) × (length rows.old ≡ length areas.now)
        × T (proportion_ok proportion) }
    ensures { Lined proportion (length columns.old) (place (length columns.old) (at areas.now))
        columns.new rows.new }
{
    let count = columns_of(areas.len(), proportion);
    for i in 0..areas.len() {
        let p = place(areas, i);
        columns[i] = p % count;
        rows[i] = p / count;
    }
}

// How many boxes go before box i: those of larger area, and those of equal area and lower index.
fn place(areas: &[f64], i: usize) -> usize
    requires { i < length areas.now }
    ensures { result ≡ place (length areas.now) (at areas.now) i }
{
    let mut count: usize = 0;
    for (j, &area) in areas.iter().enumerate() {
        if goes_before(areas[i], i, area, j) {
            count += 1;
        }
    }
    count
}

// Whether box j, of area b, goes before box i, of area a.
fn goes_before(a: f64, i: usize, b: f64, j: usize) -> bool
    ensures { result ≡ ((a <ᶠ b) || (eq a b && nat_lt j i)) }
{
    a < b || (a == b && j < i)
}

// ---- one axis of the grid: box i stands in line lines[i], its column for widths, its row for heights

// Where each box's centre comes to stand.
fn axis(
    sides: &[f64],
    lines: &[usize],
    padding: f64,
    centres: &mut [f64],
    breadths: &mut [f64],
    cells: &mut [f64],
)
    requires { (length lines.now ≡ length sides.now) × (length centres.old ≡ length sides.now) × (length breadths.old ≡ length sides.now)
        × (length cells.old ≡ length sides.now) × InLines (length sides.now) lines.now }
    ensures { At (length sides.now) centres.new nan
        (placed (length sides.now) (line_of lines.now) (at sides.now) padding) }
{
    breadths_of(sides, lines, padding, breadths);
    starts_of(breadths, cells);
    centres_of(sides, lines, breadths, cells, centres);
}

// Each box in the middle of its cell.
fn centres_of(sides: &[f64], lines: &[usize], breadths: &[f64], cells: &[f64], centres: &mut [f64])
    requires { (length lines.now ≡ length sides.now) × (length breadths.now ≡ length sides.now)
        × (length cells.now ≡ length sides.now) × (length centres.old ≡ length sides.now) × InLines (length sides.now) lines.now }
    ensures { At (length sides.now) centres.new nan
        (λ i. centred (at cells.now (line_of lines.now i)) (at breadths.now (line_of lines.now i))
        (at sides.now i)) }
{
    for (i, &side) in sides.iter().enumerate() {
        let line = lines[i];
        centres[i] = cells[line] + (breadths[line] - side) / 2.0 + side / 2.0;
    }
}

// The width of each line: of the boxes in it, the largest side plus padding, from 0.
fn breadths_of(sides: &[f64], lines: &[usize], padding: f64, breadths: &mut [f64])
    requires { (length lines.now ≡ length sides.now) × (length breadths.old ≡ length sides.now) × InLines (length sides.now) lines.now }
    ensures { At (length sides.now) breadths.new nan
        (breadth (length sides.now) (line_of lines.now) (at sides.now) padding) }
{
    clear(breadths);
    for (&line, side) in lines.iter().zip(sides) {
        breadths[line] = maximum(breadths[line], side + padding);
    }
}

fn clear(list: &mut [f64])
    ensures { At (length list.old) list.new nan (λ _. nought) }
{
    list.fill(0.0);
}

// Where each line starts: the widths before it, summed in order.
fn starts_of(breadths: &[f64], cells: &mut [f64])
    requires { length cells.old ≡ length breadths.now }
    ensures { At (length cells.old) cells.new nan (start (at breadths.now)) }
{
    let mut sum = 0.0;
    for (j, cell) in cells.iter_mut().enumerate() {
        *cell = sum;
        sum += breadths[j];
    }
}

// ---- columns

// How many columns k boxes have. Only 1.618 has a table.
fn columns_of(k: usize, proportion: f64) -> usize
    requires { (k ≤ max_circles) × T (proportion_ok proportion) }
    ensures { result ≡ columns k proportion }
{
    if proportion == GOLDEN {
        return golden_columns(k);
    }
    raised(root_or_nan(k as f64) * root_or_nan(proportion)) as usize
}

// The least whole number that is not below x, and the largest u64 where that is past them all.
// 0 for NaN, for the infinities and for what is not above 0.
pub fn raised(x: f64) -> u64
    ensures { result ≡ raised_word x }
{
    if x > 0.0 {
        // 2^64
        if x < 18446744073709551616.0 {
            let whole = truncating_f64_to_u64(x);
            // from 2^53 on an f64 has no fraction
            if x < 9007199254740992.0 && (whole as f64) < x {
                return whole + 1;
            }
            return whole;
        }
        // 1.0 / 0.0 is the infinity
        if x < 1.0 / 0.0 {
            return u64::MAX;
        }
    }
    0
}

fn golden_columns(k: usize) -> usize
    requires { k ≤ max_circles }
    ensures { result ≡ columns k golden }
{
    if k == 0 {
        return 0;
    }
    TABLE[k - 1]
}

// How many columns 1 to 64 boxes have at 1.618: root(k) * root(1.618), raised to a whole number.
const TABLE: [usize; MAX_CIRCLES] = [
    2, 2, 3, 3, 3, 4, 4, 4, 4, 5, 5, 5, 5, 5, 5, 6, 6, 6, 6, 6, 6, 6, 7, 7, 7, 7, 7, 7, 7, 7, 8, 8,
    8, 8, 8, 8, 8, 8, 8, 9, 9, 9, 9, 9, 9, 9, 9, 9, 9, 9, 10, 10, 10, 10, 10, 10, 10, 10, 10, 10,
    10, 11, 11, 11,
];
