// The levels on both sides of an inner face, four numbers gathered from ground and tide: they say whether its new velocity is 0 and give its rise, and of a still face
// they are all that its new velocity asks for.
ghost use Rattle.std.specs.Prelude.{◌≡◌};
ghost use Rattle.rules.specs.Site.{read_ground, read_state};
ghost use Rattle.around.specs.Still.{still_face, StillPlace};

use layout::ways::Way;
use layout::words::height_at;
use rules::{Card, Face};

// The inner face of which (i, j) is cell K, as if it were still: with 0 for all that is no level.
pub fn still_face(card: Card, way: Way, land: &[i32], tide: &[i32], i: usize, j: usize) -> Face
    requires { StillPlace card land.now tide.now way i j }
    ensures { result ≡ still_face (read_ground card land.now) (read_state card tide.now).height way i j }
{
    let columns = card.columns as usize;
    let i_l = way.forth_column(i);
    let j_l = way.forth_row(j);
    Face {
        old_k: 0,
        old_l: 0,
        new_k: height_at(card, tide, i, j),
        new_l: height_at(card, tide, i_l, j_l),
        ground_k: lists::word(land, 0, columns, i, j),
        ground_l: lists::word(land, 0, columns, i_l, j_l),
        own: 0,
        ahead: 0,
        behind: 0,
        above_k: 0,
        above_l: 0,
        below_k: 0,
        below_l: 0,
        u: 0,
        u_ahead: 0,
        u_behind: 0,
        u_above: 0,
        u_below: 0,
    }
}
