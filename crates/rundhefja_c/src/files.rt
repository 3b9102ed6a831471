// The exports of `rundhefja::files`, each with its clauses.
ghost use Rattle.std.specs.Prelude.{◌≡◌, length, take, drop};
ghost use Rattle.scope.specs.CardFile.{read_field, field_body};
ghost use Rattle.scope.specs.Saving.{card_of, write_card, write_text};
ghost use Rattle.card_file.specs.Parts.{body_place};
ghost use Rattle.rundhefja.specs.Answers.{field_read, saved_of, ReadsBack};

use rundhefja::answers::{FieldRead, Written};
use shapes::circle::Circle;

// The field, and its body as a place in the file and a length: both 0 where the field is refused.
#[unsafe(no_mangle)]
pub extern "C" fn rundhefja_field(file: &[u8], at: usize) -> FieldRead
    ensures answer { result ≡ field_read (read_field file.now at) (body_place file.now at) (length (field_body file.now at)) }
    ensures body { take result.body_length (drop result.body_start file.now) ≡ field_body file.now at }
{
    rundhefja::files::rundhefja_field(file, at)
}

// The card's file, put into a lent list.
#[unsafe(no_mangle)]
pub extern "C" fn rundhefja_write_card(
    circles: &[Circle],
    factor: f64,
    masks: &[u64],
    patterns: &[u64],
    out: &mut [u8],
) -> Written
    ensures { (saved_of result out.new
        ≡ write_card (card_of factor circles.now masks.now patterns.now) out.old)
        × ReadsBack (card_of factor circles.now masks.now patterns.now) result out.new }
{
    rundhefja::files::rundhefja_write_card(circles, factor, masks, patterns, out)
}

// The text, put into a lent list: 4,096 bytes are enough for any.
#[unsafe(no_mangle)]
pub extern "C" fn rundhefja_card_text(input: &[u8], text: &mut [u8]) -> Written
    ensures { saved_of result text.new ≡ write_text input.now text.old }
{
    rundhefja::files::rundhefja_card_text(input, text)
}
