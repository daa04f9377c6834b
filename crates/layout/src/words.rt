// The words of a state, or of a list in its layout, by column and row.
ghost use Rattle.std.specs.Prelude.{◌≡◌};
ghost use Rattle.rules.specs.Site.{read_state};
ghost use Rattle.layout.specs.Places.{HeightPlace, FacePlace};
ghost use Rattle.layout.specs.Ways.{speeds};

use super::ways::Way;
use rules::Card;

// The height of a cell.
pub fn height_at(card: Card, state: &[i32], i: usize, j: usize) -> i32
    requires { HeightPlace card state.now i j }
    ensures { result ≡ (read_state card state.now).height i j }
{
    let columns = card.columns as usize;
    lists::word(state, 0, columns, i, j)
}

// What stands at a face of this way.
pub fn face_at(card: Card, way: Way, state: &[i32], i: usize, j: usize) -> i32
    requires { FacePlace card state.now way i j }
    ensures { result ≡ speeds (read_state card state.now) way i j }
{
    let first = way.first(card);
    let wide = way.wide(card);
    lists::word(state, first, wide, i, j)
}
