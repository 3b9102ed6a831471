// What is made of a card: the text of its layout, and its file.
#![tactic(auto)]

mod lines;
mod puts;
mod writing;

ghost use Rattle.std.specs.Prelude.{◌≡◌, ◌≤◌, take};
ghost use Rattle.scope.specs.Numbers.{golden};
ghost use Rattle.scope.specs.Layout.{layout};
ghost use Rattle.scope.specs.CardFile.{values_refusal};
ghost use Rattle.scope.specs.Print.{printed, card_text};
ghost use Rattle.scope.specs.Saving.{card_of, write_card, write_text};
ghost use Rattle.scope.specs.Twins.{first_written};
ghost use Rattle.card_output.specs.Saving.{saved, ReadsBack};
ghost use Rattle.card_output.specs.Texts.{IsText};
ghost use Rattle.card_file.specs.Answers.{shown};
ghost use Rattle.card_file.specs.Unused.{RestIsBlank};

use crate::lines::{printed, refused_text};
use crate::puts::put_bytes;
use crate::writing::{is_short, put_file};
use card_file::card::Card;
use card_file::cards::read_card;
use intake::checks::check_card;
use intake::limits::{GOLDEN, MAX_CIRCLES, too_many};
use layout::normalize::normalize_layout_with_clusters;
use refusals::{Refusal, refuse_if};
use shapes::circle::Circle;

// A longer input is refused (2), before anything is read as a field.
pub const MAX_INPUT: usize = 65536;

// A first line of at most 77 bytes, ten of at most 61, whose circle and cluster have one digit, and 54 of at most 63.
pub const MAX_TEXT: usize = 4096;

// No card's file is longer: 11 bytes, 29 for each of 64 circles and 19 for each of 2,048 regions.
pub const MAX_FILE: usize = 40779;

// The text is the first `length` bytes, and the rest is 0.
#[derive(Clone, Copy)]
pub struct Text {
    pub length: usize,
    pub bytes: [u8; MAX_TEXT],
    ghost fits: { length ≤ 4096 },
}

impl Text {
    pub fn as_bytes(&self) -> &[u8]
        ensures { result.now ≡ take self.now.length self.now.bytes }
    {
        &self.bytes[..self.length]
    }
}

// The very bytes that program `card` prints for an input.
pub fn card_text(input: &[u8]) -> Text
    ensures { IsText (card_text input.now) result.length result.bytes }
{
    if input.len() > MAX_INPUT {
        return refused_text(Refusal::TooManyRegions);
    }
    let card = read_card(input);
    match card.refusal {
        Some(refusal) => refused_text(refusal),
        None => layout_text(card),
    }
}

// The layout of a card that was read, at 1.618.
fn layout_text(card: Card) -> Text
    requires { RestIsBlank card × (values_refusal (shown card) ≡ 0) }
    ensures { IsText (printed (layout (take card.n card.circles) card.factor (take card.m card.masks)
        (take card.m card.areas) golden)) result.length result.bytes }
{
    // Copies, as in `read_card`: nothing points into the card.
    let mut placed = card.circles;
    let circles = &mut placed[..card.n];
    let masks = card.masks;
    let areas = card.areas;
    let laid = normalize_layout_with_clusters(
        circles,
        card.factor,
        &masks[..card.m],
        &areas[..card.m],
        GOLDEN,
    )
    .unwrap();
    printed(circles, &laid)
}

// The text that `card_text` has, put into a lent list, and how many bytes it has. What lies behind it stays, and a list too short (15)
// is not written to.
pub fn write_text(input: &[u8], out: &mut [u8]) -> Result<usize, Refusal>
    ensures { saved result out.new ≡ write_text input.now out.old }
{
    let text = card_text(input);
    refuse_if(out.len() < text.length, Refusal::OutputTooShort)?;
    Ok(put_bytes(out, 0, text.as_bytes()))
}

// Puts the file of a card into a lent list, and gives its length: 11 bytes, 29 for each circle, 19 for each region. An area goes
// by its pattern, since a float keeps no NaN's digits. What lies behind the file stays, and a refused list is not written to.
// Refused: too many circles (1), lists of unequal length (13), too many regions (2), a centre (3), a radius (4), masks that do not
// rise (5), the factor (6), two circles of one ink (14), a list too short (15).
pub fn write_card(
    circles: &[Circle],
    factor: f64,
    masks: &[u64],
    patterns: &[u64],
    out: &mut [u8],
) -> Result<usize, Refusal>
    ensures { (saved result out.new
        ≡ write_card (card_of factor circles.now masks.now patterns.now) out.old)
        × ReadsBack (card_of factor circles.now masks.now patterns.now) result out.new }
{
    check_card(circles, factor, masks, patterns.len())?;
    refuse_if(
        is_short(out.len(), circles.len(), masks.len()),
        Refusal::OutputTooShort,
    )?;
    Ok(put_file(out, circles, factor, masks, patterns))
}

// The same of the first n circles of an array. The others are not looked at.
pub fn write_card_by_value(
    circles: [Circle; MAX_CIRCLES],
    n: usize,
    factor: f64,
    masks: &[u64],
    patterns: &[u64],
    out: &mut [u8],
) -> Result<usize, Refusal>
    ensures answer { saved result out.new ≡ first_written n circles factor masks.now patterns.now out.old }
    ensures back { ReadsBack (card_of factor (take n circles) masks.now patterns.now) result out.new }
{
    refuse_if(too_many(n), Refusal::TooManyCircles)?;
    write_card(&circles[..n], factor, masks, patterns, out)
}
