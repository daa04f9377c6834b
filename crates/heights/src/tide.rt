// The new heights, at the front of the tide, from what crossed the faces.
ghost use Rattle.std.specs.Prelude.{◌≡◌, pos};
ghost use Rattle.std.specs.Int.Signed.{le_z};
ghost use Rattle.rules.specs.Site.{read_state};
ghost use Rattle.laws.specs.Reading.{Holds};
ghost use Rattle.rules.specs.Step.{new_height};
ghost use Rattle.transfers.specs.Tide as Tide;
ghost use Rattle.layout.specs.Places.{HeightPlace};
ghost use Rattle.heights.specs.Known.{Crossed, CrossedCell, InLayout};

use layout::{cells, words};
use rules::Card;

// A cell's new height.
fn new_height(card: Card, state: &[i32], tide: &[i32], i: usize, j: usize) -> i32
    requires { CrossedCell card state.now tide.now i j }
    ensures { result ≡ new_height card (read_state card state.now) i j }
{
    let cell = cells::cell_at(card, state, tide, i, j);
    face::new_height(cell.height, cell.west, cell.east, cell.south, cell.north)
}

// Every cell's, once what crosses the faces stands behind.
pub fn heights(card: Card, state: &[i32], tide: &mut [i32])
    requires { Crossed card state.now tide.old }
    ensures { Holds card (Tide.tide card (read_state card state.now)) tide.new }
{
    let columns = card.columns as usize;
    let rows = card.rows as usize;
    // By row and column, the numbers that a cell's height and its four faces take.
    for j in 0..rows {
        for i in 0..columns {
            lists::put(tide, columns, i, j, new_height(card, state, tide, i, j));
        }
    }
}

// Whether a height of the tide is no more than 50,000,000.
fn height_fits(card: Card, tide: &[i32], i: usize, j: usize) -> bool
    requires { HeightPlace card tide.now i j }
    ensures { result ≡ le_z ((read_state card tide.now).height i j) (pos 50000000) }
{
    let h = words::height_at(card, tide, i, j);
    h <= 50000000
}

// Whether every height is.
pub fn heights_fit(card: Card, tide: &[i32]) -> bool
    requires { InLayout card tide.now }
    ensures { result ≡ Tide.tide_fits card tide.now }
{
    let columns = card.columns as usize;
    let rows = card.rows as usize;
    let mut fit = true;
    // By row and column, which a height's place takes; with no branch in it, so that the compiler may take several at once.
    for j in 0..rows {
        for i in 0..columns {
            fit &= height_fits(card, tide, i, j);
        }
    }
    fit
}
