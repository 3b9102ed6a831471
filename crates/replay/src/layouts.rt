// Whole layouts at a proportion.
use crate::body::Body;
use crate::{groups, places};
use layout::normalize::{Arrangement, Layout, normalize_layout_with_clusters_by_value};

// How many circles, masks and areas; the proportion, the factor, the circles, the masks, the areas; the refusal, the clusters,
// the mask of the moved circles, the padding and, where they fit a layout, the circles.
pub fn layout_agrees(mut body: Body<'_>) -> Option<()> {
    let n = usize::from(body.byte()?);
    let m = usize::from(body.short()?);
    let a = usize::from(body.short()?);
    let proportion = body.float()?;
    let factor = body.float()?;
    let circles = body.circles(n)?;
    let mut mask_room = [0; 4096];
    let masks = body.words(m, &mut mask_room)?;
    let mut area_room = [0.0; 4096];
    let areas = body.floats(a, &mut area_room)?;
    let answer = normalize_layout_with_clusters_by_value(
        circles, n, factor, masks, areas, proportion,
    );
    body.is_refusal(&answer)?;
    let as_given = Layout {
        arrangement: Arrangement {
            count: 0,
            numbers: [0; 64],
            moved: 0,
            padding: 0.0,
        },
        circles,
    };
    let laid = answer.unwrap_or(as_given);
    let arrangement = laid.arrangement;
    groups::are_numbers(&mut body, arrangement.count, arrangement.numbers)?;
    body.is_word(arrangement.moved)?;
    body.is_result(arrangement.padding)?;
    places::are_circles(&mut body, laid.circles, n)?;
    body.ends()
}
