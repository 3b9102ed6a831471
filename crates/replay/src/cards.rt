// Whole cards: the two-byte length of the card file, the file, and the very bytes that program `card` prints for it. An accepted card is also written again.
use crate::body::Body;
use card_file::cards::read_card;
use card_output::{MAX_FILE, card_text, write_card_by_value};

pub fn card_agrees(mut body: Body<'_>) -> Option<()> {
    let length = body.short()?;
    let file = body.part(usize::from(length))?;
    let text = card_text(file);
    body.is_rest(text.as_bytes())?;
    is_written_again(file).then_some(())
}

// Whether a file that the reader takes comes out of the writer as it was.
fn is_written_again(file: &[u8]) -> bool {
    let card = read_card(file);
    if card.refusal.is_some() {
        return true;
    }
    let mut out = [0u8; MAX_FILE];
    match write_card_by_value(
        card.circles,
        card.n,
        card.factor,
        card.masks(),
        card.patterns(),
        &mut out,
    ) {
        Ok(length) => out.get(..length) == Some(file),
        Err(_) => false,
    }
}
