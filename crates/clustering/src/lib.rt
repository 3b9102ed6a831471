// Which circles belong together: by the regions that they share, or by how they lie.
#![tactic(auto)]

ghost use Rattle.std.specs.Prelude.{◌≡◌, Bool, false, not, cond, ◌&&◌, ◌||◌, List, ℕ, ◌<◌, ◌≤◌, eqb, ltb, length, IfOk};
ghost use Rattle.std.specs.Float.Ieee.Scale.{finite};
ghost use Rattle.scope.specs.Numbers.{◌≤ᶠ◌};
ghost use Rattle.scope.specs.Runs.{bit};
ghost use Rattle.scope.specs.PackedRows.{packed_row};
ghost use Rattle.scope.specs.Links.{regions, linked_by_regions, linked_by_circles};
ghost use Rattle.scope.specs.Tolerance.{tolerance};
ghost use Rattle.scope.specs.Closure.{Marks, at, closure};
ghost use Rattle.scope.specs.Groups.{clusters, plain_clusters, clusters_of, accepted_grouping, area_grouping, plain_grouping};
ghost use Rattle.scope.specs.Twins.{first_grouping};
ghost use Rattle.laws.proofs.Closure.{Equivalence};
ghost use Rattle.intake.specs.Limits.{max_circles};
ghost use Rattle.intake.specs.Firsts.{FirstFrom};
ghost use Rattle.clustering.specs.Answers.{grouped, accepted, NumbersByChains};
ghost use Rattle.clustering.specs.Table.{Row, Shows, Holds, closed_to, Given};

use geometry::circle::overlap;
use geometry::lengths::absolute;
use intake::checks::{check_circles, check_regions};
use intake::limits::{MAX_CIRCLES, too_many};
use refusals::{Refusal, refuse_if};
use shapes::circle::Circle;
use shapes::extremes::maximum;

// How many clusters there are, and the cluster of each circle. What is not used is 0.
#[derive(Clone, Copy)]
pub struct Clusters {
    pub count: usize,
    pub numbers: [u8; MAX_CIRCLES],
}

// A mark for each pair of circles.
type Table = [[u8; MAX_CIRCLES]; MAX_CIRCLES];

// The same, packed: place j of row i is bit j of word i.
type Rows = [u64; MAX_CIRCLES];

// Circles of one region belong together, unless its area is not finite or at most the tolerance. Any tolerance will do, a NaN too.
// Refused: too many circles (1), lists of unequal length (13), too many regions (2), masks that do not rise (5).
pub fn find_clusters_from_exclusive_regions(
    n: usize,
    masks: &[u64],
    areas: &[f64],
    tolerance: f64,
) -> Result<Clusters, Refusal>
    ensures answer { grouped result ≡ area_grouping n masks.now areas.now tolerance }
    ensures chains { IfOk result (λ c. NumbersByChains n tolerance (regions masks.now areas.now) c.numbers) }
{
    check_regions(n, masks, areas)?;
    Ok(by_regions(n, masks, areas, tolerance))
}

// Circles belong together if their edges cross or one lies inside the other.
// Refused: too many circles (1), a centre (3) or a radius (4) out of range, two circles of one ink (14).
pub fn find_clusters(circles: &[Circle]) -> Result<Clusters, Refusal>
    ensures { grouped result ≡ plain_grouping circles.now }
{
    check_circles(circles)?;
    Ok(by_circles(circles))
}

// The same of the first n circles of an array. The others are not looked at.
pub fn find_clusters_by_value(circles: [Circle; MAX_CIRCLES], n: usize) -> Result<Clusters, Refusal>
    ensures { grouped result ≡ first_grouping n circles }
{
    refuse_if(too_many(n), Refusal::TooManyCircles)?;
    find_clusters(&circles[..n])
}

// What is no more than this does not count in a layout: 1e-10 of the largest area, or of 1. Rounding leaves some 1e-12 of the largest where there is no
// overlap, and an overlap that is meant is larger than 1e-10.
pub fn tolerance(areas: &[f64]) -> f64
    ensures { (masks : List ℕ) → length masks ≡ length areas.now → result ≡ tolerance (regions masks areas.now) }
{
    let largest = areas
        .iter()
        .fold(0.0, |so_far, &area| maximum(so_far, absolute(area)));
    1e-10 * maximum(largest, 1.0)
}

// ---- accepted: links, closure and numbers in turn

// A region's mask is a packed row, so the links are marked and closed in words, and the table is unpacked once.
fn by_regions(n: usize, masks: &[u64], areas: &[f64], tolerance: f64) -> Clusters
    requires { (n ≤ max_circles) × (length masks.now ≡ length areas.now) }
    ensures { accepted result ≡ accepted_grouping (clusters n (regions masks.now areas.now) tolerance) }
{
    let mut rows = [0u64; MAX_CIRCLES];
    hold_selves(&mut rows, n);
    hold_regions(&mut rows, n, masks, areas, tolerance);
    close_rows(&mut rows, n);
    let mut m = [[0u8; MAX_CIRCLES]; MAX_CIRCLES];
    unpack(&mut m, &rows, n);
    numbered(&m, n)
}

fn by_circles(circles: &[Circle]) -> Clusters
    requires { length circles.now ≤ max_circles }
    ensures { accepted result ≡ accepted_grouping (plain_clusters circles.now) }
{
    let n = circles.len();
    let mut m = [[0u8; MAX_CIRCLES]; MAX_CIRCLES];
    link_selves(&mut m, n);
    link_circles(&mut m, circles);
    close(&mut m, n);
    numbered(&m, n)
}

// ---- links in the table

// Links each circle to itself, in a table of zeros.
fn link_selves(m: &mut Table, n: usize)
    requires { (n ≤ max_circles) × Shows n m.old (λ i j. false) }
    ensures { Shows n m.new eqb }
{
    for i in 0..n {
        m[i][i] = 1;
    }
}

// Whether two circles overlap does not depend on their order, so row i takes what the rows before it have found.
fn link_circles(m: &mut Table, circles: &[Circle])
    requires { (length circles.now ≤ max_circles) × Shows (length circles.now) m.old eqb }
    ensures { Shows (length circles.now) m.new (linked_by_circles circles.now) }
{
    for (i, a) in circles.iter().enumerate() {
        for (j, b) in circles.iter().enumerate() {
            let linked = if j < i { m[j][i] != 0 } else { overlap(*a, *b) };
            if linked {
                m[i][j] = 1;
            }
        }
    }
}

// ---- links in packed rows

// Links each circle to itself, in rows of zeros.
fn hold_selves(rows: &mut Rows, n: usize)
    requires { (n ≤ max_circles) × Holds n rows.old (λ i j. false) }
    ensures { Holds n rows.new eqb }
{
    for i in 0..n {
        rows[i] = 1u64 << i;
    }
}

fn hold_regions(rows: &mut Rows, n: usize, masks: &[u64], areas: &[f64], tolerance: f64)
    requires { (n ≤ max_circles) × (length masks.now ≡ length areas.now) × Holds n rows.old eqb }
    ensures { Holds n rows.new (linked_by_regions tolerance (regions masks.now areas.now)) }
{
    let circles = below(n);
    for (k, &mask) in masks.iter().enumerate() {
        if exceeds(areas[k], tolerance) {
            hold(rows, mask & circles);
        }
    }
}

// Links the circles of a mask with each other. It is a packed row, and is joined to the row of each of its circles.
fn hold(rows: &mut Rows, mask: u64)
    ensures { (n : ℕ) (f : ℕ → ℕ → Bool) → n ≤ max_circles → Holds n rows.old f
        → ((j : ℕ) → n ≤ j → bit mask j ≡ false) → Holds n rows.new (λ i j. f i j || (bit mask i && bit mask j)) }
{
    let mut rest = mask;
    while rest != 0 {
        let i = first_of(rest);
        rows[i] |= mask;
        rest = without_first(rest);
    }
}

// Finite and not at most the tolerance, which may be a NaN.
fn exceeds(area: f64, tolerance: f64) -> bool
    ensures { result ≡ (finite area && not (area ≤ᶠ tolerance)) }
{
    area.is_finite() && !(area <= tolerance)
}

// The row of all circles below n.
fn below(n: usize) -> u64
    requires { n ≤ max_circles }
    ensures { (j : ℕ) → bit result j ≡ ltb j n }
{
    if n < MAX_CIRCLES {
        return (1u64 << n) - 1;
    }
    0xffff_ffff_ffff_ffff
}

// The first place of a row, 64 if it has none.
fn first_of(row: u64) -> usize
    ensures { FirstFrom (bit row) 0 max_circles result × ((row ≡ 0 → ⊥) → result < max_circles) }
{
    row.trailing_zeros() as usize
}

// A row without its first place.
fn without_first(row: u64) -> u64
    requires { row ≡ 0 → ⊥ }
    ensures { (result < row) × ((i : ℕ) → FirstFrom (bit row) 0 max_circles i → (j : ℕ) → bit result j ≡ (bit row j && not (eqb j i))) }
{
    row & (row - 1)
}

// ---- closure

// Closes the first n rows and columns of a table: packed once, closed in words, unpacked once.
fn close(m: &mut Table, n: usize)
    requires { n ≤ max_circles }
    ensures { (t : Marks) → Shows n m.old (at t) → Shows n m.new (at (closure n t)) }
{
    let mut rows = [0u64; MAX_CIRCLES];
    pack(&mut rows, m, n);
    close_rows(&mut rows, n);
    unpack(m, &rows, n);
}

// Warshall's closure, row by row: in the end a row that holds place k holds all that row k does.
fn close_rows(rows: &mut Rows, n: usize)
    requires { n ≤ max_circles }
    ensures { (t : Marks) → Holds n rows.old (at t) → Holds n rows.new (at (closure n t)) }
{
    for i in 0..n {
        rows[i] = grown(rows, i);
    }
}

// Row i with the rows of all places that it holds or comes to hold. The rows before it are closed already: what they hold need not be looked at again.
fn grown(rows: &Rows, i: usize) -> u64
    requires { i < max_circles }
    ensures { (n : ℕ) (t : Marks) → n ≤ max_circles → i < n → Holds n rows.now (closed_to i n t)
        → (j : ℕ) → bit result j ≡ (ltb j n && at (closure n t) i j) }
{
    let mut all = rows[i];
    let mut joined = 1u64 << i;
    let mut rest = other_than(all, joined);
    while rest != 0 {
        let k = first_of(rest);
        let row = rows[k];
        all |= row;
        joined |= 1u64 << k;
        if k < i {
            joined |= row;
        }
        rest = other_than(all, joined);
    }
    all
}

// The places of a row that are not in another.
fn other_than(row: u64, other: u64) -> u64
    ensures { (j : ℕ) → bit result j ≡ (bit row j && not (bit other j)) }
{
    (row | other) ^ other
}

// Packs the first n marks of each row into a word, place j at bit j.
fn pack(rows: &mut Rows, m: &Table, n: usize)
    requires { (n ≤ max_circles) × (length rows.old ≡ max_circles) }
    ensures { (f : ℕ → ℕ → Bool) → Shows n m.now f → Holds n rows.new f }
{
    for i in 0..n {
        rows[i] = packed(m, n, i);
    }
}

fn packed(m: &Table, n: usize, i: usize) -> u64
    requires { (n ≤ max_circles) × (i < max_circles) }
    ensures { (f : ℕ → ℕ → Bool) → i < n → Shows n m.now f → result ≡ packed_row n (f i) }
{
    let mut row: u64 = 0;
    for j in 0..n {
        row |= u64::from(m[i][j]) << j;
    }
    row
}

// Unpacks the first n rows: a mark is 1 where the row holds the place and 0 elsewhere. A row that is the same as that of its first circle is copied from
// there, unless that one was written just before.
fn unpack(m: &mut Table, rows: &Rows, n: usize)
    requires { n ≤ max_circles }
    ensures { (f g : ℕ → ℕ → Bool) → Holds n rows.now f → Shows n m.old g → Shows n m.new f }
{
    for i in 0..n {
        let row = rows[i];
        let first = first_of(row);
        if first + 1 < i && rows[first] == row {
            let marks = m[first];
            m[i] = marks;
        } else {
            unpack_row(m, i, row);
        }
    }
}

fn unpack_row(m: &mut Table, i: usize, row: u64)
    requires { i < max_circles }
    ensures { (n : ℕ) (f : ℕ → ℕ → Bool) → n ≤ max_circles → Shows n m.old f
        → Shows n m.new (λ a b. cond (eqb a i) (bit row b) (f a b)) }
{
    m[i] = [0u8; MAX_CIRCLES];
    let mut rest = row;
    while rest != 0 {
        let j = first_of(rest);
        m[i][j] = 1;
        rest = without_first(rest);
    }
}

// ---- numbers

// Numbers the clusters by smallest member: a circle that has no number yet is the smallest of the next cluster.
fn numbered(m: &Table, n: usize) -> Clusters
    requires { n ≤ max_circles }
    ensures { (t : Marks) → Shows n m.now (at t) → Equivalence n t → accepted result ≡ accepted_grouping (clusters_of n t) }
{
    let mut count: usize = 0;
    let mut given = Numbers {
        numbers: [0u8; MAX_CIRCLES],
        seen: [0u8; MAX_CIRCLES],
    };
    for i in 0..n {
        if given.seen[i] == 0 {
            given.give(&m[i], n, count as u8);
            count += 1;
        }
    }
    Clusters {
        count,
        numbers: given.numbers,
    }
}

// The cluster of each circle that has been seen, and 1 for each of these.
#[derive(Drop)]
struct Numbers {
    numbers: [u8; MAX_CIRCLES],
    seen: [u8; MAX_CIRCLES],
}

impl Numbers {
    // Gives a number to the circles that are marked in a row. Every place is read and written, so that it is a few wide operations.
    fn give(&mut self, row: &[u8; MAX_CIRCLES], n: usize, number: u8)
        requires { n ≤ max_circles }
        ensures { (p : ℕ → Bool) → Row n row.now p
            → Given n p number self.old.numbers self.new.numbers × Given n p 1 self.old.seen self.new.seen }
    {
        for j in 0..n {
            let marked = row[j] != 0;
            let was = self.numbers[j];
            let had = self.seen[j];
            self.numbers[j] = if marked { number } else { was };
            self.seen[j] = if marked { 1 } else { had };
        }
    }
}
