// The square root of an f64, correctly rounded, from integers alone: the f64 nearest the exact root, proved for every f64. The hypot of two stands beside it.
#![tactic(auto)]

ghost use Rattle.std.specs.Prelude.{◌≡◌, ◌<◌};
ghost use Rattle.std.specs.Float.{binary64};
ghost use Rattle.std.specs.Float.Ieee.{of_bits};
ghost use Rattle.rounding.specs.Root.{root};
ghost use Rattle.scope.specs.Distance.{root_answer};
ghost use Rattle.refusals.specs.Numbers.{answer_of};
ghost use Rattle.root.specs.Parts.{infinity};

pub mod hypot;
mod pattern;
mod squares;
mod whole;

use pattern::{INFINITY, SIGN};
use refusals::Refusal;

// The f64 nearest the exact root; -0 gives -0, and +infinity itself. NaN and a number below 0 are refused, by 12.
#[tactic(auto, using(crate::proofs::AnswerLaws::root_tests))]
pub fn root(x: f64) -> Result<f64, Refusal>
    ensures { answer_of result ≡ root_answer x }
{
    if x != x {
        return Err(Refusal::NoRoot);
    }
    let b = f64::to_bits(x);
    // The patterns above that of -0 are those of the numbers below 0, in falling order.
    if SIGN < b {
        return Err(Refusal::NoRoot);
    }
    if b == 0 {
        return Ok(x);
    }
    // No NaN is left, so only +infinity and -0 are.
    if INFINITY <= b {
        return Ok(x);
    }
    Ok(positive(b))
}

// The root of the number above 0 that has the pattern b.
fn positive(b: u64) -> f64
    requires { (0 < b) × (b < infinity) }
    ensures { result ≡ root binary64 (of_bits binary64 b) }
{
    let p = pattern::split(b);
    let w = whole::root(p.digits, 0);
    // One of the root's 54 digits is too many. Where it is 1 the exact root lies past half-way, since a whole root that is odd has an odd square and
    // digits * 2^54 is even: so that digit rounds up, and there is no tie. A carry goes on into the exponent, where it belongs.
    f64::from_bits((p.half + 1) * pattern::LEADING + (w.root + 1) / 2)
}
