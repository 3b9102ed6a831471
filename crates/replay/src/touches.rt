// Batches of points, and the circles under each.
use crate::body::Body;
use touch::touch_points_by_value;

// How many circles, points and answers; the circles, the points, the word that each answer is before the call; the refusal, the answers.
pub fn touches_agree(mut body: Body<'_>) -> Option<()> {
    let n = usize::from(body.byte()?);
    let m = usize::from(body.short()?);
    let k = usize::from(body.short()?);
    let circles = body.circles(n)?;
    let points = body.points(m)?;
    let mut words = [body.word()?; 2048];
    let answers = words.get_mut(..k)?;
    let refused = touch_points_by_value(circles, n, points, m, answers);
    body.is_refusal(&refused)?;
    for answer in answers {
        body.is_word(*answer)?;
    }
    body.ends()
}
