// The card that a file holds, in arrays.
ghost use Rattle.std.specs.Prelude.{◌≡◌, ◌≤◌, take};

use intake::limits::{MAX_CIRCLES, MAX_REGIONS};
use refusals::Refusal;
use shapes::circle::Circle;

// A refusal, or the factor, n circles and m regions. Each area stands beside its pattern, and what is not used is 0. It is no `Result`,
// since one of 51 kB would be moved about, and take more stack than the C header says.
#[derive(Clone, Copy)]
pub struct Card {
    pub refusal: Option<Refusal>,
    pub factor: f64,
    pub n: usize,
    pub circles: [Circle; MAX_CIRCLES],
    pub m: usize,
    pub masks: [u64; MAX_REGIONS],
    pub patterns: [u64; MAX_REGIONS],
    pub areas: [f64; MAX_REGIONS],
    ghost circles_fit: { n ≤ 64 },
    ghost regions_fit: { m ≤ 2048 },
}

impl Card {
    pub fn circles(&self) -> &[Circle]
        ensures { result.now ≡ take self.now.n self.now.circles }
    {
        &self.circles[..self.n]
    }

    pub fn masks(&self) -> &[u64]
        ensures { result.now ≡ take self.now.m self.now.masks }
    {
        &self.masks[..self.m]
    }

    pub fn patterns(&self) -> &[u64]
        ensures { result.now ≡ take self.now.m self.now.patterns }
    {
        &self.patterns[..self.m]
    }

    pub fn areas(&self) -> &[f64]
        ensures { result.now ≡ take self.now.m self.now.areas }
    {
        &self.areas[..self.m]
    }
}
