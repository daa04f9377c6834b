// The two ways that faces point. Face (i, j) lies at the west side of cell (i, j), or at its south side.
ghost use Rattle.std.specs.Prelude.{◌≡◌, ◌≤◌, ◌<◌};
ghost use Rattle.laws.specs.Facts.{Ranges};
ghost use Rattle.layout.specs.Ways as Ways;

use rules::Card;

#[derive(Clone, Copy, Debug, PartialEq, Eq)]
pub enum Way {
    East,
    North,
}

impl Way {
    // The other one, which crosses it.
    #[tactic(auto, unfolding(crate::specs::Ways::across))]
    pub fn across(self) -> Way
        ensures { result ≡ Ways.across self }
    {
        match self {
            Way::East => Way::North,
            Way::North => Way::East,
        }
    }

    // The columns of the grid of these faces.
    #[tactic(auto, unfolding(crate::specs::Ways::wide))]
    pub fn wide(self, card: Card) -> usize
        ensures { result ≡ Ways.wide card self }
    {
        let columns = card.columns as usize;
        match self {
            Way::East => columns + 1,
            Way::North => columns,
        }
    }

    // Its rows.
    #[tactic(auto, unfolding(crate::specs::Ways::high))]
    pub fn high(self, card: Card) -> usize
        ensures { result ≡ Ways.high card self }
    {
        let rows = card.rows as usize;
        match self {
            Way::East => rows,
            Way::North => rows + 1,
        }
    }

    // Where it starts in a state: behind the heights, and behind the eastward faces. All but the choice is the same both ways, so that the compiler works it out
    // once for all the words around a face.
    #[tactic(auto, unfolding(crate::specs::Ways::first))]
    pub fn first(self, card: Card) -> usize
        requires { Ranges card }
        ensures { result ≡ Ways.first card self }
    {
        let columns = card.columns as usize;
        let rows = card.rows as usize;
        let eastward = rows * (columns + 1);
        let skipped = match self {
            Way::East => 0,
            Way::North => eastward,
        };
        rows * columns + skipped
    }

    // The side of a cell that crosses these faces.
    #[tactic(auto, unfolding(crate::specs::Ways::side))]
    pub fn side(self, card: Card) -> u32
        ensures { result ≡ Ways.side card self }
    {
        match self {
            Way::East => card.dx,
            Way::North => card.dy,
        }
    }

    // Whether face (i, j) is a wall.
    #[tactic(auto, unfolding(crate::specs::Ways::is_wall))]
    pub fn is_wall(self, card: Card, i: usize, j: usize) -> bool
        ensures { result ≡ Ways.is_wall card self i j }
    {
        let columns = card.columns as usize;
        let rows = card.rows as usize;
        match self {
            Way::East => (i == 0) | (i == columns),
            Way::North => (j == 0) | (j == rows),
        }
    }

    // From a face in column i back to the cell behind it, its cell K: one column less, or the same.
    #[tactic(auto, unfolding(crate::specs::Ways::back))]
    pub fn back_column(self, i: usize) -> usize
        requires { (self ≡ Way.East) → 0 < i }
        ensures { result ≡ Ways.back self i }
    {
        match self {
            Way::East => i - 1,
            Way::North => i,
        }
    }

    // And its row.
    #[tactic(auto, unfolding(crate::specs::Ways::back, crate::specs::Ways::across))]
    pub fn back_row(self, j: usize) -> usize
        requires { (self ≡ Way.North) → 0 < j }
        ensures { result ≡ Ways.back (Ways.across self) j }
    {
        match self {
            Way::East => j,
            Way::North => j - 1,
        }
    }

    // From cell K of a face, in column i, on to its cell L: one column more, or the same.
    #[tactic(auto, unfolding(crate::specs::Ways::forth))]
    pub fn forth_column(self, i: usize) -> usize
        requires { i ≤ 128 }
        ensures { result ≡ Ways.forth self i }
    {
        match self {
            Way::East => i + 1,
            Way::North => i,
        }
    }

    // And its row.
    #[tactic(auto, unfolding(crate::specs::Ways::forth, crate::specs::Ways::across))]
    pub fn forth_row(self, j: usize) -> usize
        requires { j ≤ 128 }
        ensures { result ≡ Ways.forth (Ways.across self) j }
    {
        match self {
            Way::East => j,
            Way::North => j + 1,
        }
    }
}
