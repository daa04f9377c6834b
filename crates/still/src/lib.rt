// Still rows. Nothing crosses a face that has no velocity, so that a step need not look face by face at rows where none has one: they are marked once a step.
#![tactic(auto)]

ghost use Rattle.std.specs.Prelude.{◌≡◌, length};
ghost use Rattle.rules.specs.Site.{read_state, is_zero};
ghost use Rattle.layout.specs.Places.{FacePlace};
ghost use Rattle.layout.specs.Ways.{speeds};
ghost use Rattle.still.specs.Rows.{row_still, cells_still};
ghost use Rattle.still.specs.Marks.{Marked, both_marked, FaceRow, CellRow, MarksRoom, RowIn};

use layout::ways::Way;
use layout::words;
use rules::Card;

// Whether a face has velocity 0.
fn face_still(card: Card, way: Way, state: &[i32], i: usize, j: usize) -> bool
    requires { FacePlace card state.now way i j }
    ensures { result ≡ is_zero (speeds (read_state card state.now) way i j) }
{
    walls::is_zero(words::face_at(card, way, state, i, j))
}

// Whether every face of row j that points this way has. Where water moves, the middle of the row does in nearly every state: so that is looked at first.
fn row_still(card: Card, way: Way, state: &[i32], j: usize) -> bool
    requires { FaceRow card state.now way j }
    ensures { result ≡ row_still card (read_state card state.now) way j }
{
    let wide = way.wide(card);
    let half = wide / 2;
    if !face_still(card, way, state, half, j) {
        return false;
    }
    let mut still = true;
    // A loop, since a face's place takes the column's number; with no branch in it, so that the compiler may take several faces at once.
    for i in 0..wide {
        still &= face_still(card, way, state, i, j);
    }
    still
}

// Whether every face of every cell of row j has.
#[tactic(auto, unfolding(crate::specs::Rows::cells_still, layout::specs::Ways::high))]
fn cells_still(card: Card, state: &[i32], j: usize) -> bool
    requires { CellRow card state.now j }
    ensures { result ≡ cells_still card (read_state card state.now) j }
{
    row_still(card, Way::East, state, j)
        && row_still(card, Way::North, state, j)
        && row_still(card, Way::North, state, j + 1)
}

// No row marked. A function, since two calls ask for it.
pub fn no_marks() -> [bool; 128]
    ensures { length result ≡ 128 }
{
    [false; 128]
}

// Marks the still rows of cells.
pub fn mark(card: Card, state: &[i32], marks: &mut [bool])
    requires { MarksRoom card state.now marks.old }
    ensures { Marked card state.now marks.new }
{
    let rows = card.rows as usize;
    // By its number, which the look at a row takes too.
    for j in 0..rows {
        marks[j] = cells_still(card, state, j);
    }
}

// Whether the cells on both sides of row j of the faces that point this way are marked. A row of walls parts no cells.
#[tactic(auto, unfolding(crate::specs::Marks::both_marked, layout::specs::Ways::high))]
pub fn both_still(card: Card, way: Way, marks: &[bool], j: usize) -> bool
    requires { RowIn card way marks.now j }
    ensures { result ≡ both_marked card way marks.now j }
{
    match way {
        Way::East => marks[j],
        Way::North => {
            let rows = card.rows as usize;
            if (j == 0) | (j == rows) {
                return false;
            }
            marks[j - 1] & marks[j]
        }
    }
}
