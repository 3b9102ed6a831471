// A field of a card file: a tag byte, a length of two bytes, a body. Both calls take any place and know no order or count.
ghost use Rattle.std.specs.Prelude.{◌≡◌, ◌+◌, ◌≤◌, [], ◌∷◌, length, drop};
ghost use Rattle.std.specs.Result.{IfOk};
ghost use Rattle.scope.specs.Refusals.{front_to_back};
ghost use Rattle.scope.specs.CardFile.{
  tag,
  stated_length,
  length_of_body,
  body,
  head_cut,
  body_cut,
  wrong_length,
  circle_from,
  field_refusal,
  read_field,
  field_body,
  head_length,
};
ghost use Rattle.refusals.specs.Numbers.{number_if};
ghost use Rattle.card_file.specs.Answers.{field_answer};
ghost use Rattle.card_file.specs.Parts.{StartsAt, body_place};
ghost use Rattle.card_file.specs.Tags.{number, HasTag, TagOf};

use crate::tags::Tag;
use crate::words::{byte_at, short_at, word_at};
use bits::float_of;
use refusals::{Refusal, refuse_if};
use shapes::circle::Circle;
use shapes::point::Point;

// What a field holds.
#[derive(Clone, Copy)]
pub enum Field {
    Factor(f64),
    Circle(Circle),
    Region(u64, f64),
}

// The tag and the length.
pub const HEAD_LENGTH: usize = 3;

// The field that starts at a place. Refused: cut short (11), an unknown tag (9), a wrong length (10).
pub fn read_field(file: &[u8], at: usize) -> Result<Field, Refusal>
    ensures { field_answer result ≡ read_field file.now at }
{
    let tag = check_field(file, at)?;
    let body = body_at(file, at, tag);
    Ok(match tag {
        Tag::Factor => Field::Factor(float_of(word_at(body, 0))),
        Tag::Circle => Field::Circle(circle_of(body)),
        Tag::Region => Field::Region(word_at(body, 0), float_of(word_at(body, 8))),
    })
}

// The body of that field, as a part of the file: an empty part where the field is refused.
pub fn field_body<'a>(file: &'a [u8], at: usize) -> &'a [u8]
    ensures body { result.now ≡ field_body file.now at }
    ensures place { StartsAt file.entry (body_place file.now at) result }
{
    match check_field(file, at) {
        Ok(tag) => body_at(file, at, tag),
        Err(_) => &file[0..0],
    }
}

// ---- the parts of the field at a place

// None where the byte is no tag's, and past the end.
pub(crate) fn tag_at(file: &[u8], at: usize) -> Option<Tag>
    ensures { TagOf (tag (drop at file.now)) result }
{
    Tag::of(byte_at(file, at, 0))
}

fn stated_length(file: &[u8], at: usize) -> u64
    ensures { result ≡ stated_length (drop at file.now) }
{
    short_at(file, at, 1) as u64
}

pub(crate) fn body_at<'a>(file: &'a [u8], at: usize, tag: Tag) -> &'a [u8]
    requires { HasTag (drop at file.now) tag × (at + head_length + length_of_body (number tag) ≤ length file.now) }
    ensures body { result.now ≡ body (drop at file.now) }
    ensures place { StartsAt file.entry (at + head_length) result }
{
    let start = at + HEAD_LENGTH;
    let end = start + tag.body_length() as usize;
    &file[start..end]
}

// A circle's body: x, y, radius, ink.
pub(crate) fn circle_of(body: &[u8]) -> Circle
    ensures { result ≡ circle_from body.now }
{
    let x = float_of(word_at(body, 0));
    let y = float_of(word_at(body, 8));
    let radius = float_of(word_at(body, 16));
    let ink = short_at(body, 0, 24);
    Circle {
        center: Point { x, y },
        radius,
        ink,
    }
}

// ---- the checks

// What passes has its tag given.
fn check_field(file: &[u8], at: usize) -> Result<Tag, Refusal>
    ensures number { number_if result ≡ field_refusal (drop at file.now) }
    ensures tag { IfOk result (HasTag (drop at file.now)) }
{
    if is_head_cut(file, at) {
        return Err(Refusal::CutShort);
    }
    let Some(tag) = tag_at(file, at) else {
        return Err(Refusal::BadTag);
    };
    check_length(file, at, tag)?;
    Ok(tag)
}

// The last checks of every field: its length, and that the file does not end in its body.
pub(crate) fn check_length(file: &[u8], at: usize, tag: Tag) -> Result<(), Refusal>
    requires { HasTag (drop at file.now) tag }
    ensures { number_if result ≡ front_to_back ((10, wrong_length (drop at file.now)) ∷ (11, body_cut (drop at file.now)) ∷ []) }
{
    if is_wrong_length(file, at, tag) {
        return Err(Refusal::WrongLength);
    }
    refuse_if(is_body_cut(file, at, tag), Refusal::CutShort)
}

// Refusal 11, in the head. A place at or past the end is a cut head.
pub(crate) fn is_head_cut(file: &[u8], at: usize) -> bool
    ensures { result ≡ head_cut (drop at file.now) }
{
    bytes_left(file, at) < HEAD_LENGTH
}

// Refusal 10.
fn is_wrong_length(file: &[u8], at: usize, tag: Tag) -> bool
    requires { HasTag (drop at file.now) tag }
    ensures { result ≡ wrong_length (drop at file.now) }
{
    stated_length(file, at) != tag.body_length()
}

// Refusal 11, in the body.
fn is_body_cut(file: &[u8], at: usize, tag: Tag) -> bool
    requires { HasTag (drop at file.now) tag }
    ensures { result ≡ body_cut (drop at file.now) }
{
    bytes_left(file, at) < HEAD_LENGTH + tag.body_length() as usize
}

fn bytes_left(file: &[u8], at: usize) -> usize
    ensures { result ≡ length (drop at file.now) }
{
    file.len().saturating_sub(at)
}
