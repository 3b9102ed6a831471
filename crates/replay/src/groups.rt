// Clusterings: the refusal's number, the count, 64 cluster numbers.
use crate::body::Body;
use clustering::{Clusters, find_clusters_by_value, find_clusters_from_exclusive_regions};
use refusals::Refusal;

// How many circles, the circles, the answer.
pub fn circles_agree(mut body: Body<'_>) -> Option<()> {
    let n = usize::from(body.byte()?);
    let circles = body.circles(n)?;
    is_grouped(&mut body, find_clusters_by_value(circles, n))?;
    body.ends()
}

// How many circles, masks and areas; the tolerance, the masks, the areas, the answer.
pub fn areas_agree(mut body: Body<'_>) -> Option<()> {
    let n = usize::from(body.byte()?);
    let m = usize::from(body.short()?);
    let a = usize::from(body.short()?);
    let tolerance = body.float()?;
    let mut mask_room = [0; 4096];
    let masks = body.words(m, &mut mask_room)?;
    let mut area_room = [0.0; 4096];
    let areas = body.floats(a, &mut area_room)?;
    let answer = find_clusters_from_exclusive_regions(n, masks, areas, tolerance);
    is_grouped(&mut body, answer)?;
    body.ends()
}

// The refusal, the count and the numbers: all 0 after a refusal.
fn is_grouped(body: &mut Body<'_>, answer: Result<Clusters, Refusal>) -> Option<()> {
    body.is_refusal(&answer)?;
    let none = Clusters {
        count: 0,
        numbers: [0; 64],
    };
    let clusters = answer.unwrap_or(none);
    are_numbers(body, clusters.count, clusters.numbers)
}

pub fn are_numbers(body: &mut Body<'_>, count: usize, numbers: [u8; 64]) -> Option<()> {
    body.is_count(count)?;
    for number in numbers {
        body.is_byte(number)?;
    }
    Some(())
}
