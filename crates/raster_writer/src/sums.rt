// How long the text of the values is.
// Not one with lines.rt: a function over both needs a trait of what is done at a cell, its laws and two impls, for loops of one line each. The loops are no chains: each sum has its own bound.
ghost use Rattle.std.specs.Prelude.{◌≡◌, ◌*◌, ◌≤◌, length};
ghost use Rattle.raster_writer.specs.Lines.{cell_text, row_text, row_texts, Checked, Row, Cell};

use crate::metres;
use rules::Card;

fn cell_size(card: Card, land: &[i32], i: usize, j: usize) -> usize
    requires { Cell card land.now i j }
    ensures { (result ≡ length (cell_text card land.now i j)) × (result ≤ 11) }
{
    let columns = card.columns as usize;
    let z = land[j * columns + i];
    metres::value_size(z) + 1
}

fn row_size(card: Card, land: &[i32], j: usize) -> usize
    requires { Row card land.now j }
    ensures { (result ≡ length (row_text card land.now j card.columns)) × (result ≤ 1408) }
{
    let columns = card.columns as usize;
    let mut size = 0;
    for i in 0..columns {
        size = size + cell_size(card, land, i, j);
    }
    size
}

pub fn values_size(card: Card, land: &[i32]) -> usize
    requires { Checked card land.now }
    ensures { (result ≡ length (row_texts card land.now card.rows)) × (result ≤ 180224) }
{
    let rows = card.rows as usize;
    let mut size = 0;
    for n in 0..rows {
        size = size + row_size(card, land, rows - 1 - n);
    }
    size
}
