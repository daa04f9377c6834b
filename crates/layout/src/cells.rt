// The numbers of a cell: its height, and what stands at its four faces.
ghost use Rattle.std.specs.Prelude.{◌≡◌};
ghost use Rattle.layout.specs.Cells.{CellPlace, cell_at};

use super::ways::Way;
use super::words;
use rules::Card;

#[derive(Clone, Copy, Debug, PartialEq, Eq)]
pub struct Cell {
    pub height: i32,
    pub west: i32,
    pub east: i32,
    pub south: i32,
    pub north: i32,
}

// A cell's height in one list and its faces in another, both in the state's layout.
pub fn cell_at(card: Card, heights: &[i32], faces: &[i32], i: usize, j: usize) -> Cell
    requires { CellPlace card heights.now faces.now i j }
    ensures { result ≡ cell_at card heights.now faces.now i j }
{
    Cell {
        height: words::height_at(card, heights, i, j),
        west: words::face_at(card, Way::East, faces, i, j),
        east: words::face_at(card, Way::East, faces, i + 1, j),
        south: words::face_at(card, Way::North, faces, i, j),
        north: words::face_at(card, Way::North, faces, i, j + 1),
    }
}
