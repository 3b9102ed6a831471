// The regions that the circles were fitted to, and by their areas the circle in which each circle lies.
ghost use Rattle.std.specs.Prelude.{◌≡◌, true, false, not, ◌&&◌, ℕ, ◌<◌, ◌≤◌, ◌-◌, ◌^◌, eqb, length, IfSome};
ghost use Rattle.std.specs.Option.{unwrap_or};
ghost use Rattle.std.proofs.Math.Option.{none};
ghost use Rattle.scope.specs.Numbers.{◌≤ᶠ◌};
ghost use Rattle.scope.specs.Runs.{bit, least};
ghost use Rattle.scope.specs.Links.{regions};
ghost use Rattle.scope.specs.Tolerance.{tolerance};
ghost use Rattle.scope.specs.Offset.{total, area_with_mask, other_bits, contained_child_parent, if_smaller};
ghost use Rattle.layout.specs.Offsets.{maybe, parent_at, ParentsOf};

use intake::masks::holds;

// Each region's mask, and beside it its area.
#[derive(Clone, Copy)]
pub(crate) struct Regions<'a> {
    pub(crate) masks: &'a [u64],
    pub(crate) areas: &'a [f64],
    ghost paired: { length masks.now ≡ length areas.now },
}

impl Regions<'_> {
    // The sum of the areas of circle i's regions.
    fn total(&self, i: usize) -> f64
        requires { i < 64 }
        ensures { result ≡ total (regions self.now.masks.now self.now.areas.now) i }
    {
        let mut sum = 0.0;
        for (k, &mask) in self.masks.iter().enumerate() {
            if holds_above(mask, self.areas[k], i, 0.0) {
                sum += self.areas[k];
            }
        }
        sum
    }

    // The area of the region with this mask, 0 if there is none.
    fn area_with_mask(&self, mask: u64) -> f64
        ensures { result ≡ area_with_mask mask (regions self.now.masks.now self.now.areas.now) }
    {
        for (k, &m) in self.masks.iter().enumerate() {
            if m == mask {
                return self.areas[k];
            }
        }
        0.0
    }

    // The one circle below n that shares regions with circle i. The search ends at the second: no later region takes one away.
    fn partner(&self, n: usize, tol: f64, i: usize) -> Option<usize>
        requires { (n ≤ 64) × (i < 64) }
        ensures is { unwrap_or result n ≡ least n (λ q. eqb (2 ^ q) (other_bits tol (regions self.now.masks.now self.now.areas.now) i)) }
        ensures below { IfSome result (λ q. q < n) }
    {
        let mut others = 0;
        for k in 0..self.masks.len() {
            if holds_above(self.masks[k], self.areas[k], i, tol) {
                others |= without(self.masks[k], i);
                if is_several(others) {
                    return None;
                }
            }
        }
        single(n, others)
    }

    // Circle i has no region of its own above the tolerance, and shares regions with one circle alone.
    // The areas decide, not the circles: a child that touches the edge from inside may fail the test of the circles.
    fn contained_child_parent(&self, n: usize, tol: f64, i: usize) -> Option<usize>
        requires { (n ≤ 64) × (i < 64) }
        ensures is { maybe result ≡ contained_child_parent n (regions self.now.masks.now self.now.areas.now) tol i }
        ensures below { IfSome result (λ p. p < n) }
    {
        let p = self.partner(n, tol, i)?;
        if tol < self.area_with_mask(only(i)) {
            return None;
        }
        Some(p)
    }

    // The parent of circle i. A child is smaller than its parent: of two circles that coincide, neither is moved.
    fn parent_of(&self, n: usize, tol: f64, i: usize) -> Option<usize>
        requires { (n ≤ 64) × (i < n) }
        ensures is { maybe result ≡ if_smaller (regions self.now.masks.now self.now.areas.now) i
            (contained_child_parent n (regions self.now.masks.now self.now.areas.now) tol i) }
        ensures below { IfSome result (λ p. p < n) }
    {
        let p = self.contained_child_parent(n, tol, i)?;
        if self.total(i) < self.total(p) * (1.0 - 1e-6) {
            Some(p)
        } else {
            None
        }
    }

    // Writes down each circle's parent, n if it has none; whether any circle has one.
    pub(crate) fn find_parents(&self, tol: f64, parents: &mut [u16]) -> bool
        requires { (length parents.old ≤ 64) × (tol ≡ tolerance (regions self.now.masks.now self.now.areas.now)) }
        ensures all { ParentsOf (length parents.old) (regions self.now.masks.now self.now.areas.now) parents.new }
        ensures none { result ≡ false → (i : ℕ) → i < length parents.old
            → parent_at (length parents.old) parents.new i ≡ none }
    {
        let n = parents.len();
        let mut any = false;
        for (i, parent) in parents.iter_mut().enumerate() {
            let p = self.parent_of(n, tol, i);
            *parent = p.unwrap_or(n) as u16;
            any |= p.is_some();
        }
        any
    }
}

// ---- of one mask

// Whether a region holds circle i, and its area is not at most the limit. A NaN is at most nothing.
fn holds_above(mask: u64, area: f64, i: usize, limit: f64) -> bool
    requires { i < 64 }
    ensures { result ≡ (bit mask i && not (area ≤ᶠ limit)) }
{
    holds(mask, i) && !(area <= limit)
}

// The mask of circle i alone.
pub(crate) fn only(i: usize) -> u64
    requires { i < 64 }
    ensures { result ≡ 2 ^ i }
{
    1u64 << i
}

// A mask that holds circle i, without it.
fn without(mask: u64, i: usize) -> u64
    requires { (i < 64) × (bit mask i ≡ true) }
    ensures { result ≡ mask - 2 ^ i }
{
    mask - only(i)
}

// Whether a mask holds two circles or more: those above the lowest stay when 1 is taken off.
fn is_several(mask: u64) -> bool
    ensures { result ≡ true → (mask ≡ 0 → ⊥) × ((q : ℕ) → mask ≡ 2 ^ q → ⊥) }
{
    mask != 0 && mask & (mask - 1) != 0
}

// The one circle below n that a mask holds.
fn single(n: usize, mask: u64) -> Option<usize>
    requires { n ≤ 64 }
    ensures is { unwrap_or result n ≡ least n (λ q. eqb (2 ^ q) mask) }
    ensures below { IfSome result (λ q. q < n) }
{
    let q = mask.trailing_zeros() as usize;
    if q < n && only(q) == mask {
        Some(q)
    } else {
        None
    }
}
