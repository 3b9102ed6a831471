// A field of a card file, the file of a card, and the text that program `card` prints for one.
ghost use Rattle.std.specs.Prelude.{◌≡◌, length, take, drop};
ghost use Rattle.scope.specs.CardFile.{read_field, field_body};
ghost use Rattle.scope.specs.Saving.{card_of, write_card, write_text};
ghost use Rattle.card_file.specs.Answers.{field_answer};
ghost use Rattle.card_file.specs.Parts.{body_place};
ghost use Rattle.rundhefja.specs.Answers.{field_read, saved_of, ReadsBack};

use crate::answers::{FieldRead, Written};
use card_file::fields::{Field, HEAD_LENGTH, field_body, read_field};
use card_output::{write_card, write_text};
use refusals::Refusal;
use shapes::circle::Circle;
use shapes::point::Point;

// The field, and its body as a place in the file and a length: both 0 where the field is refused.
pub fn rundhefja_field(file: &[u8], at: usize) -> FieldRead
    ensures answer { result ≡ field_read (read_field file.now at) (body_place file.now at) (length (field_body file.now at)) }
    ensures body { take result.body_length (drop result.body_start file.now) ≡ field_body file.now at }
{
    let length = body_length(file, at);
    let start = if length == 0 { 0 } else { at + HEAD_LENGTH };
    field_read(read_field(file, at), start, length)
}

// The card's file, put into a lent list.
pub fn rundhefja_write_card(
    circles: &[Circle],
    factor: f64,
    masks: &[u64],
    patterns: &[u64],
    out: &mut [u8],
) -> Written
    ensures { (saved_of result out.new
        ≡ write_card (card_of factor circles.now masks.now patterns.now) out.old)
        × ReadsBack (card_of factor circles.now masks.now patterns.now) result out.new }
{
    write_card(circles, factor, masks, patterns, out).into()
}

// The text, put into a lent list: 4,096 bytes are enough for any.
pub fn rundhefja_card_text(input: &[u8], text: &mut [u8]) -> Written
    ensures { saved_of result text.new ≡ write_text input.now text.old }
{
    write_text(input, text).into()
}

// ---- a field's value in its parts

fn body_length(file: &[u8], at: usize) -> usize
    ensures { result ≡ length (field_body file.now at) }
{
    let body = field_body(file, at);
    body.len()
}

fn field_read(field: Result<Field, Refusal>, start: usize, length: usize) -> FieldRead
    ensures { result ≡ field_read (field_answer field) start length }
{
    let mut read = FieldRead {
        refusal: 0,
        tag: 0,
        factor: 0.0,
        circle: Circle {
            center: Point { x: 0.0, y: 0.0 },
            radius: 0.0,
            ink: 0,
        },
        mask: 0,
        area: 0.0,
        body_start: start,
        body_length: length,
    };
    match field {
        Err(refusal) => read.refusal = refusal.number(),
        Ok(Field::Factor(factor)) => {
            read.tag = 1;
            read.factor = factor;
        }
        Ok(Field::Circle(circle)) => {
            read.tag = 2;
            read.circle = circle;
        }
        Ok(Field::Region(mask, area)) => {
            read.tag = 3;
            read.mask = mask;
            read.area = area;
        }
    }
    read
}
