// Charges for the card stock of whole layouts.
use crate::body::Body;
use card_stock::card_stock_by_value;

// How many circles, masks and areas; the proportion, the factor, the circles, the masks, the areas, the price; the refusal, the amount.
pub fn charge_agrees(mut body: Body<'_>) -> Option<()> {
    let n = usize::from(body.byte()?);
    let m = usize::from(body.short()?);
    let a = usize::from(body.short()?);
    let proportion = body.float()?;
    let factor = body.float()?;
    let circles = body.circles(n)?;
    let mut mask_room = [0; 4096];
    let masks = body.words(m, &mut mask_room)?;
    let mut area_room = [0.0; 4096];
    let areas = body.floats(a, &mut area_room)?;
    let cents = body.word()?;
    let answer = card_stock_by_value(circles, n, factor, masks, areas, proportion, cents);
    body.is_refusal(&answer)?;
    body.is_word(answer.unwrap_or(0))?;
    body.ends()
}
