// The card that a file holds: factor, circles, regions. The file is read front to back, and only then are the values checked.
ghost use Rattle.std.specs.Prelude.{◌≡◌, ◌&&◌, suc, ◌≤◌, eqb, length, take, drop, Some, None};
ghost use Rattle.std.specs.Result.{IfOk};
ghost use Rattle.scope.specs.Refusals.{too_many, too_many_regions};
ghost use Rattle.scope.specs.CardFile.{started, first_refusal, misplaced, next_refusal, fields, read_file, read_card};
ghost use Rattle.scope.specs.Saving.{file_of};
ghost use Rattle.refusals.specs.Numbers.{number_if};
ghost use Rattle.intake.specs.Limits.{max_circles, max_regions};
ghost use Rattle.card_file.specs.Answers.{ReadCard, shown, card_answer};
ghost use Rattle.card_file.specs.Tags.{number, HasTag};
ghost use Rattle.card_file.specs.Unused.{RestIsBlank, IsBlank};

use crate::card::Card;
use crate::fields::{HEAD_LENGTH, body_at, check_length, circle_of, is_head_cut, tag_at};
use crate::tags::Tag;
use crate::words::word_at;
use bits::float_of;
use intake::blanks::blank;
use intake::checks::check_card;
use intake::limits::{MAX_CIRCLES, MAX_REGIONS, too_many, too_many_regions};
use refusals::Refusal;
use shapes::circle::Circle;

// The card of a whole file. Refused, front to back: a field cut short (11), a tag unknown or out of place (9), the 65th circle (1) or
// the 2,049th region (2), a wrong length (10); then a centre (3), a radius (4), masks that do not rise (5), the factor (6), two circles of
// one ink (14).
// The file of the card is the very file that was read.
pub fn read_card(file: &[u8]) -> Card
    ensures answer { card_answer result ≡ read_card file.now }
    ensures again { result.refusal ≡ None → file_of (shown result) ≡ file.now }
    ensures rest { RestIsBlank result }
{
    let card = read_file(file);
    if let Some(refusal) = card.refusal {
        return refused(refusal);
    }
    // Copies: where nothing points into the card, it is not moved about.
    let circles = card.circles;
    let masks = card.masks;
    if let Err(refusal) = check_card(&circles[..card.n], card.factor, &masks[..card.m], card.m) {
        return refused(refusal);
    }
    card
}

// The fields, with any values. The factor comes first, and once; its body is 8 bytes long.
fn read_file(file: &[u8]) -> Card
    ensures answer { card_answer result ≡ read_file file.now }
    ensures rest { RestIsBlank result }
{
    if let Err(refusal) = check_first(file) {
        return refused(refusal);
    }
    let factor = float_of(word_at(body_at(file, 0, Tag::Factor), 0));
    later_fields(file, HEAD_LENGTH + 8, factor)
}

// The circles and regions from a place on.
fn later_fields(file: &[u8], start: usize, factor: f64) -> Card
    ensures answer { card_answer result ≡ fields 0 (started factor) (drop start file.now) }
    ensures rest { RestIsBlank result }
{
    let mut n = 0;
    let mut circles = [blank(); MAX_CIRCLES];
    let mut m = 0;
    let mut masks = [0u64; MAX_REGIONS];
    let mut patterns = [0u64; MAX_REGIONS];
    let mut areas = [0.0f64; MAX_REGIONS];
    let mut at = start;
    while at < file.len() {
        let tag = match check_next(file, at, n, m) {
            Ok(tag) => tag,
            Err(refusal) => return refused(refusal),
        };
        let body = body_at(file, at, tag);
        match tag {
            Tag::Factor => unreachable!(),
            Tag::Circle => {
                circles[n] = circle_of(body);
                n += 1;
            }
            Tag::Region => {
                let pattern = word_at(body, 8);
                masks[m] = word_at(body, 0);
                patterns[m] = pattern;
                areas[m] = float_of(pattern);
                m += 1;
            }
        }
        at += HEAD_LENGTH + tag.body_length() as usize;
    }
    Card {
        refusal: None,
        factor,
        n,
        circles,
        m,
        masks,
        patterns,
        areas,
    }
}

fn refused(refusal: Refusal) -> Card
    ensures refusal { result.refusal ≡ Some refusal }
    ensures blank { IsBlank result }
{
    Card {
        refusal: Some(refusal),
        factor: 0.0,
        n: 0,
        circles: [blank(); MAX_CIRCLES],
        m: 0,
        masks: [0u64; MAX_REGIONS],
        patterns: [0u64; MAX_REGIONS],
        areas: [0.0f64; MAX_REGIONS],
    }
}

// ---- the checks

// A file with nothing in it lacks the factor's tag.
fn check_first(file: &[u8]) -> Result<(), Refusal>
    ensures { number_if result ≡ first_refusal file.now }
{
    if file.is_empty() {
        return Err(Refusal::BadTag);
    }
    if is_head_cut(file, 0) {
        return Err(Refusal::CutShort);
    }
    let Some(tag) = tag_at(file, 0) else {
        return Err(Refusal::BadTag);
    };
    if tag != Tag::Factor {
        return Err(Refusal::BadTag);
    }
    check_length(file, 0, tag)
}

// Of the field at a place, after n circles and m regions. What passes has its tag given.
fn check_next(file: &[u8], at: usize, n: usize, m: usize) -> Result<Tag, Refusal>
    requires { (n ≤ max_circles) × (m ≤ max_regions) }
    ensures number { (card : ReadCard) → length card.circles ≡ n → length card.masks ≡ m
        → number_if result ≡ next_refusal card (drop at file.now) }
    ensures tag { IfOk result (HasTag (drop at file.now)) }
{
    if is_head_cut(file, at) {
        return Err(Refusal::CutShort);
    }
    let Some(tag) = tag_at(file, at) else {
        return Err(Refusal::BadTag);
    };
    if is_misplaced(tag, m) {
        return Err(Refusal::BadTag);
    }
    if is_circle_too_many(tag, n) {
        return Err(Refusal::TooManyCircles);
    }
    if is_region_too_many(tag, m) {
        return Err(Refusal::TooManyRegions);
    }
    check_length(file, at, tag)?;
    Ok(tag)
}

// Only circles and regions follow, and no circle follows a region.
fn is_misplaced(tag: Tag, m: usize) -> bool
    ensures { (card : ReadCard) → length card.masks ≡ m → result ≡ misplaced card (number tag) }
{
    match tag {
        Tag::Factor => true,
        Tag::Circle => m != 0,
        Tag::Region => false,
    }
}

fn is_circle_too_many(tag: Tag, n: usize) -> bool
    requires { n ≤ max_circles }
    ensures { result ≡ eqb (number tag) 2 && too_many (suc n) }
{
    tag == Tag::Circle && too_many(n + 1)
}

fn is_region_too_many(tag: Tag, m: usize) -> bool
    requires { m ≤ max_regions }
    ensures { result ≡ eqb (number tag) 3 && too_many_regions (suc m) }
{
    tag == Tag::Region && too_many_regions(m + 1)
}
