// The eighteen numbers around an inner face, gathered from ground, state and tide.
ghost use Rattle.std.specs.Prelude.{◌≡◌};
ghost use Rattle.around.specs.Faces.{AtFace, flow_face};

use super::flow::Flow;
use super::words;
use layout::ways::Way;
use layout::words::face_at;
use rules::Face;

// Around the inner face of which (i, j) is cell K; it is the near one of cell L. Both engines' passes have it inlined: as a function of its own it hands its
// eighteen numbers over the stack, and a step of moving water took a third longer.
#[inline(always)]
pub fn face(flow: &Flow, way: Way, i: usize, j: usize) -> Face
    requires { AtFace flow.now.card way i j }
    ensures { result ≡ flow_face flow.now way i j }
{
    let card = flow.card;
    let state = flow.state;
    let tide = flow.tide;
    let columns = card.columns as usize;
    let i_l = way.forth_column(i);
    let j_l = way.forth_row(j);
    let across = way.across();
    let above = words::above(card, way, state, i_l, j_l);
    let below = words::below(card, way, state, i_l, j_l);
    Face {
        old_k: lists::word(state, 0, columns, i, j),
        old_l: lists::word(state, 0, columns, i_l, j_l),
        new_k: lists::word(tide, 0, columns, i, j),
        new_l: lists::word(tide, 0, columns, i_l, j_l),
        ground_k: lists::word(flow.land, 0, columns, i, j),
        ground_l: lists::word(flow.land, 0, columns, i_l, j_l),
        own: face_at(card, way, tide, i_l, j_l),
        ahead: words::far(card, way, tide, i_l, j_l),
        behind: face_at(card, way, tide, i, j),
        above_k: words::far(card, across, tide, i, j),
        above_l: words::far(card, across, tide, i_l, j_l),
        below_k: face_at(card, across, tide, i, j),
        below_l: face_at(card, across, tide, i_l, j_l),
        u: face_at(card, way, state, i_l, j_l),
        u_ahead: words::far(card, way, state, i_l, j_l),
        u_behind: face_at(card, way, state, i, j),
        u_above: above,
        u_below: below,
    }
}
