// What stands beyond: at the far face of a cell, and at the faces abreast of one, in a list of a state's layout.
ghost use Rattle.std.specs.Prelude.{◌≡◌};
ghost use Rattle.rules.specs.Site.{read_state};
ghost use Rattle.layout.specs.Places.{FacePlace};
ghost use Rattle.layout.specs.Ways as Ways;
ghost use Rattle.layout.specs.Ways.{across, forth, speeds};
ghost use Rattle.around.specs.Around as Around;

use layout::ways::Way;
use layout::words::face_at;
use rules::Card;

// The first number for eastward faces, the second for northward ones.
#[tactic(auto, unfolding(layout::specs::Ways::pick))]
fn pick(way: Way, eastward: usize, northward: usize) -> usize
    ensures { result ≡ Ways.pick way eastward northward }
{
    match way {
        Way::East => eastward,
        Way::North => northward,
    }
}

// What stands at the far face of cell (i, j), its east or its north side.
pub fn far(card: Card, way: Way, list: &[i32], i: usize, j: usize) -> i32
    requires { FacePlace card list.now way (forth way i) (forth (across way) j) }
    ensures { result ≡ Around.onward way (speeds (read_state card list.now) way) i j }
{
    face_at(card, way, list, way.forth_column(i), way.forth_row(j))
}

// At the next face abreast of face (i, j); beyond a side wall there is none.
pub fn above(card: Card, way: Way, state: &[i32], i: usize, j: usize) -> i32
    requires { FacePlace card state.now way i j }
    ensures { result ≡ Around.speed_above card (read_state card state.now) way i j }
{
    let across = way.across();
    let column = across.forth_column(i);
    let row = across.forth_row(j);
    if (column < way.wide(card)) & (row < way.high(card)) {
        return face_at(card, way, state, column, row);
    }
    0
}

// At the one before.
pub fn below(card: Card, way: Way, state: &[i32], i: usize, j: usize) -> i32
    requires { FacePlace card state.now way i j }
    ensures { result ≡ Around.speed_below (read_state card state.now) way i j }
{
    if 0 < pick(way, j, i) {
        let across = way.across();
        return face_at(card, way, state, across.back_column(i), across.back_row(j));
    }
    0
}
