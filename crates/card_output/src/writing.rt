// A card's file put into a lent list: the factor's field, the circles', the regions'.
ghost use Rattle.std.specs.Prelude.{◌≡◌, ◌∷◌, ◌+◌, ◌*◌, ◌≤◌, length};
ghost use Rattle.scope.specs.Refusals.{too_short};
ghost use Rattle.scope.specs.CardFile.{length_of_body};
ghost use Rattle.scope.specs.Saving.{low_bytes, field, factor_body, circle_body, region_body, circle_fields, region_fields, file_of, card_of};
ghost use Rattle.intake.specs.Limits.{max_circles};
ghost use Rattle.card_file.specs.Tags.{number};
ghost use Rattle.card_output.specs.Puts.{Put};
ghost use Rattle.card_output.specs.Typed.{IsTyped, AllTyped};

use crate::puts::{put_byte, put_short, put_word};
use bits::pattern_of;
use card_file::tags::Tag;
use shapes::circle::Circle;

// Whether a list has room for fewer bytes than the file of n circles and m regions has, however many regions there are.
pub(crate) fn is_short(room: usize, n: usize, m: usize) -> bool
    requires { n ≤ max_circles }
    ensures { result ≡ too_short room (11 + 29 * n + 19 * m) }
{
    let before = 11 + 29 * n;
    room < before || (room - before) / 19 < m
}

// ---- fields one after the other

pub(crate) fn put_file(
    out: &mut [u8],
    circles: &[Circle],
    factor: f64,
    masks: &[u64],
    patterns: &[u64],
) -> usize
    requires { (length patterns.now ≡ length masks.now)
        × (11 + 29 * length circles.now + 19 * length masks.now ≤ length out.old) }
    ensures put { Put (file_of (card_of factor circles.now masks.now patterns.now)) 0 out.old result out.new }
    ensures typed { AllTyped circles.now }
{
    let circles_at = put_factor(out, 0, factor);
    let regions_at = put_circles(out, circles_at, circles);
    put_regions(out, regions_at, masks, patterns)
}

fn put_circles(out: &mut [u8], at: usize, circles: &[Circle]) -> usize
    requires { at + 29 * length circles.now ≤ length out.old }
    ensures put { Put (circle_fields circles.now) at out.old result out.new }
    ensures typed { AllTyped circles.now }
{
    let mut next = at;
    for c in circles {
        next = put_circle(out, next, *c);
    }
    next
}

fn put_regions(out: &mut [u8], at: usize, masks: &[u64], patterns: &[u64]) -> usize
    requires { (length patterns.now ≡ length masks.now) × (at + 19 * length masks.now ≤ length out.old) }
    ensures { Put (region_fields masks.now patterns.now) at out.old result out.new }
{
    let mut next = at;
    for (mask, pattern) in masks.iter().zip(patterns) {
        next = put_region(out, next, *mask, *pattern);
    }
    next
}

// ---- one field

// A tag and the length of its body.
fn put_head(out: &mut [u8], at: usize, tag: Tag) -> usize
    requires { at + 3 ≤ length out.old }
    ensures { Put (number tag ∷ low_bytes 2 (length_of_body (number tag))) at out.old result out.new }
{
    let length_at = put_byte(out, at, tag.number());
    put_short(out, length_at, tag.body_length())
}

fn put_factor(out: &mut [u8], at: usize, factor: f64) -> usize
    requires { at + 11 ≤ length out.old }
    ensures { Put (field 1 (factor_body factor)) at out.old result out.new }
{
    let body = put_head(out, at, Tag::Factor);
    put_word(out, body, pattern_of(factor))
}

// x, y, radius, ink.
fn put_circle(out: &mut [u8], at: usize, c: Circle) -> usize
    requires { at + 29 ≤ length out.old }
    ensures put { Put (field 2 (circle_body c)) at out.old result out.new }
    ensures typed { IsTyped c }
{
    let body = put_head(out, at, Tag::Circle);
    let y_at = put_word(out, body, pattern_of(c.center.x));
    let radius_at = put_word(out, y_at, pattern_of(c.center.y));
    let ink_at = put_word(out, radius_at, pattern_of(c.radius));
    put_short(out, ink_at, c.ink as u64)
}

// A mask, and an area by its pattern.
fn put_region(out: &mut [u8], at: usize, mask: u64, pattern: u64) -> usize
    requires { at + 19 ≤ length out.old }
    ensures { Put (field 3 (region_body mask pattern)) at out.old result out.new }
{
    let body = put_head(out, at, Tag::Region);
    let area_at = put_word(out, body, mask);
    put_word(out, area_at, pattern)
}
