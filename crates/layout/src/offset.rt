// A circle that lies in one other and meets no third could stand anywhere inside it. It is put half-way to the edge:
// in the middle it would leave its parent a thin ring, with no room for a label, and further out it would touch.
ghost use Rattle.std.specs.Prelude.{◌≡◌, not, ◌&&◌, cond, List, ℕ, ◌<◌, ◌≤◌, ◌+◌, ◌^◌, eqb, length};
ghost use Rattle.scope.specs.Numbers.{nought};
ghost use Rattle.scope.specs.Runs.{many};
ghost use Rattle.scope.specs.Links.{Region, regions, circle, overlap};
ghost use Rattle.scope.specs.Tolerance.{tolerance};
ghost use Rattle.scope.specs.Offset.{
  diagonal,
  move,
  child_at,
  contains_at,
  doubled,
  halved,
  doublings,
  halvings,
  max_contained_offset,
  direction,
  blocked,
  there,
  repositioned,
  parents as allParents,
  is_parent,
  tried,
  offset,
};
ghost use Rattle.intake.specs.Limits.{max_circles};
ghost use Rattle.intake.specs.Columns.{circles_of, Lifted};
ghost use Rattle.layout.specs.Offsets.{maybe, parent_at, ParentsOf, moment};
ghost use Rattle.layout.specs.Shown.{parted_of};

use crate::regions::{Regions, only};
use geometry::circle::{encloses, overlap};
use geometry::lengths::magnitude;
use intake::limits::MAX_CIRCLES;
use shapes::circle::Circle;
use shapes::extremes::maximum;
use shapes::point::Point;

// ---- the move

// Of the circle's box.
fn diagonal(c: Circle) -> f64
    ensures { result ≡ diagonal c }
{
    let b = c.bounds();
    magnitude(b.x_max - b.x_min, b.y_max - b.y_min)
}

// How far the child goes on each axis to stand at the parent's centre plus d along u.
fn way_to(parent: Circle, child: Circle, u: Point, d: f64) -> Point
    ensures { result ≡ move parent child u d }
{
    Point {
        x: parent.center.x + u.x * d - child.center.x,
        y: parent.center.y + u.y * d - child.center.y,
    }
}

fn child_at(parent: Circle, child: Circle, u: Point, d: f64) -> Circle
    ensures { result ≡ child_at parent child u d }
{
    let m = way_to(parent, child, u, d);
    child.moved_to(child.center.x + m.x, child.center.y + m.y)
}

fn contains_at(parent: Circle, child: Circle, u: Point, d: f64) -> bool
    ensures { result ≡ contains_at parent child u d }
{
    encloses(parent, child_at(parent, child, u, d))
}

// Twice as far while the child is inside there, at most eight times. The start should be past the edge: this is for when it is not.
fn doubled(parent: Circle, child: Circle, u: Point, start: f64) -> f64
    ensures { result ≡ doubled (contains_at parent child u) doublings start }
{
    let mut hi = start;
    for _ in 0..8usize {
        if !contains_at(parent, child, u, hi) {
            return hi;
        }
        hi = hi * 2.0;
    }
    hi
}

// The range from 0 to end, halved 48 times: the lower end stays inside.
fn halved(parent: Circle, child: Circle, u: Point, end: f64) -> f64
    ensures { result ≡ halved (contains_at parent child u) halvings nought end }
{
    let mut lo = 0.0;
    let mut hi = end;
    for _ in 0..48usize {
        let mid = 0.5 * (lo + hi);
        if contains_at(parent, child, u, mid) {
            lo = mid;
        } else {
            hi = mid;
        }
    }
    lo
}

// How far along u the child may go and still lie inside.
fn max_contained_offset(parent: Circle, child: Circle, u: Point) -> f64
    ensures { result ≡ max_contained_offset parent child u }
{
    let hi = diagonal(parent);
    if !contains_at(parent, child, u, 0.0) || hi <= 0.0 {
        return 0.0;
    }
    halved(parent, child, u, doubled(parent, child, u, hi))
}

// From parent to child. Where they nearly share a centre that is noise, and x is taken.
fn direction(parent: Circle, child: Circle) -> Point
    ensures { result ≡ direction parent child }
{
    let dx = child.center.x - parent.center.x;
    let dy = child.center.y - parent.center.y;
    let mag = magnitude(dx, dy);
    if 1e-9 * maximum(diagonal(parent), 1.0) < mag {
        return Point {
            x: dx / mag,
            y: dy / mag,
        };
    }
    Point { x: 1.0, y: 0.0 }
}

// Whether a move is too short to be made: what was offset once stays as it is.
fn there(m: Point, d_max: f64) -> bool
    ensures { result ≡ there m d_max }
{
    magnitude(m.x, m.y) <= 1e-9 * maximum(d_max, 1.0)
}

// Whether circle k is another than the two, and overlaps c: their edges cross, or one lies inside the other.
fn in_the_way(c: Circle, other: Circle, k: usize, p: usize, i: usize) -> bool
    ensures { result ≡ (not (eqb k i) && not (eqb k p) && overlap c other) }
{
    if k == i || k == p {
        return false;
    }
    overlap(c, other)
}

// The circles as the step reads them, in three lists. Their inks are not there: no step looks at them.
#[derive(Clone, Copy)]
struct Discs<'a> {
    xs: &'a [f64],
    ys: &'a [f64],
    radii: &'a [f64],
    ghost as_many_ys: { length ys.now ≡ length xs.now },
    ghost as_many_radii: { length radii.now ≡ length xs.now },
}

impl Discs<'_> {
    // The circle at a place of the lists.
    fn at(&self, i: usize) -> Circle
        requires { i < length self.now.xs.now }
        ensures { result ≡ circle (circles_of self.now.xs.now self.now.ys.now self.now.radii.now) i }
    {
        Circle {
            center: Point {
                x: self.xs[i],
                y: self.ys[i],
            },
            radius: self.radii[i],
            ink: 0,
        }
    }

    fn blocked(&self, p: usize, i: usize, c: Circle) -> bool
        ensures { result ≡ blocked (circles_of self.now.xs.now self.now.ys.now self.now.radii.now) p i c }
    {
        (0..self.xs.len()).any(|k| in_the_way(c, self.at(k), k, p, i))
    }

    // The child half-way between the parent's centre and its edge, unless it is there, would not lie inside, or would meet another circle.
    fn reposition_contained_child(&self, p: usize, i: usize) -> Option<Circle>
        requires { (p < length self.now.xs.now) × (i < length self.now.xs.now) }
        ensures { maybe result ≡ repositioned (circles_of self.now.xs.now self.now.ys.now self.now.radii.now) p i }
    {
        let parent = self.at(p);
        let child = self.at(i);
        let u = direction(parent, child);
        let d_max = max_contained_offset(parent, child, u);
        if d_max <= 0.0 {
            return None;
        }
        let d = 0.5 * d_max;
        if there(way_to(parent, child, u, d), d_max) {
            return None;
        }
        let c = child_at(parent, child, u, d);
        if !encloses(parent, c) || self.blocked(p, i, c) {
            return None;
        }
        Some(c)
    }
}

// ---- the step

fn only_child(parents: &[u16], p: usize) -> bool
    requires { p < length parents.now }
    ensures { let ps = parents.now in result ≡ eqb (many (length ps) (λ i. is_parent p (parent_at (length ps) ps i))) 1 }
{
    parents.iter().filter(|&&q| usize::from(q) == p).count() == 1
}

// Moves circle i if it is its parent's only child: of several, one could be moved onto another. Whether it was moved.
fn tried(xs: &mut [f64], ys: &mut [f64], radii: &[f64], parents: &[u16], i: usize) -> bool
    requires { (length ys.old ≡ length xs.old) × (length radii.now ≡ length xs.old) × (length parents.now ≡ length xs.old)
        × (i < length xs.old) × Lifted radii.now }
    ensures { let n = length xs.old in
        let before = circles_of xs.old ys.old radii.now in
        let after = circles_of xs.new ys.new radii.now in
        (rs : List Region) (mask : ℕ) → ParentsOf n rs parents.now
        → moment after (cond result (mask + 2 ^ i) mask) ≡ tried (allParents n rs) (moment before mask) i (parent_at n parents.now i) }
{
    let p = usize::from(parents[i]);
    if p >= xs.len() || !only_child(parents, p) {
        return false;
    }
    let Some(c) = Discs { xs, ys, radii }.reposition_contained_child(p, i) else {
        return false;
    };
    xs[i] = c.center.x;
    ys[i] = c.center.y;
    true
}

// The circles are tried in rising order, each where the others stand by then. The mask of those that were moved.
fn all_tried(xs: &mut [f64], ys: &mut [f64], radii: &[f64], parents: &[u16]) -> u64
    requires { (length ys.old ≡ length xs.old) × (length radii.now ≡ length xs.old) × (length parents.now ≡ length xs.old)
        × (2 ≤ length xs.old) × (length xs.old ≤ 64) × Lifted radii.now }
    ensures { (rs : List Region) → ParentsOf (length xs.old) rs parents.now
        → moment (circles_of xs.new ys.new radii.now) result
        ≡ offset (circles_of xs.old ys.old radii.now) rs }
{
    let mut mask = 0;
    for i in 0..radii.len() {
        if tried(xs, ys, radii, parents, i) {
            mask += only(i);
        }
    }
    mask
}

// Moves each only child off its parent's centre; the mask of the circles that were moved.
pub(crate) fn offset_contained_children(
    xs: &mut [f64],
    ys: &mut [f64],
    radii: &[f64],
    r: &Regions<'_>,
    tol: f64,
) -> u64
    requires { (length ys.old ≡ length xs.old) × (length radii.now ≡ length xs.old) × (length xs.old ≤ max_circles)
        × Lifted radii.now × (tol ≡ tolerance (regions r.now.masks.now r.now.areas.now)) }
    ensures circles { circles_of xs.new ys.new radii.now
        ≡ (parted_of xs.old ys.old radii.now r.now.masks.now r.now.areas.now).circles }
    ensures mask { result ≡ (parted_of xs.old ys.old radii.now r.now.masks.now r.now.areas.now).mask }
{
    let n = xs.len();
    let mut room = [0u16; MAX_CIRCLES];
    let parents = &mut room[..n];
    if n < 2 || !r.find_parents(tol, parents) {
        return 0;
    }
    all_tried(xs, ys, radii, parents)
}
