// The hypot alone, of any two numbers: it refuses none.
use crate::body::Body;
use root::hypot::hypot;

// Two numbers, the hypot. It is never -0, so a zero's sign counts here.
pub fn hypot_agrees(mut body: Body<'_>) -> Option<()> {
    let x = body.float()?;
    let y = body.float()?;
    body.is_word(bits::pattern_of(hypot(x, y)))?;
    body.ends()
}
