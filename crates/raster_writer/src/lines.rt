// The values laid into a list, a line for each row, the northern one first.
ghost use Rattle.std.specs.Prelude.{◌≡◌, ◌+◌, ◌≤◌, ◌<◌, length};
ghost use Rattle.print.specs.Appended.{Appended};
ghost use Rattle.raster_writer.specs.Lines.{behind_cell, cell_text, row_text, row_texts, Checked, Row, Cell};

use crate::metres;
use rules::Card;

// A line feed behind the last of a row, a blank behind any other.
fn behind(columns: usize, i: usize) -> u8
    requires { i < columns }
    ensures { result ≡ behind_cell columns i }
{
    if i + 1 == columns {
        return 10;
    }
    32
}

fn put_cell(card: Card, land: &[i32], i: usize, j: usize, out: &mut [u8], at: usize) -> usize
    requires { Cell card land.now i j × (at + length (cell_text card land.now i j) ≤ length out.old) }
    ensures { Appended (cell_text card land.now i j) at result out.old out.new }
{
    let columns = card.columns as usize;
    let z = land[j * columns + i];
    let end = metres::put_value(z, out, at);
    out[end] = behind(columns, i);
    end + 1
}

fn put_row(card: Card, land: &[i32], j: usize, out: &mut [u8], at: usize) -> usize
    requires { Row card land.now j × (at + length (row_text card land.now j card.columns) ≤ length out.old) }
    ensures { Appended (row_text card land.now j card.columns) at result out.old out.new }
{
    let columns = card.columns as usize;
    let mut end = at;
    // By column, the number that a cell's place takes.
    for i in 0..columns {
        end = put_cell(card, land, i, j, out, end);
    }
    end
}

pub fn put_values(card: Card, land: &[i32], out: &mut [u8], at: usize) -> usize
    requires { Checked card land.now × (at + length (row_texts card land.now card.rows) ≤ length out.old) }
    ensures { Appended (row_texts card land.now card.rows) at result out.old out.new }
{
    let rows = card.rows as usize;
    let mut end = at;
    // By row, the northern one first.
    for n in 0..rows {
        end = put_row(card, land, rows - 1 - n, out, end);
    }
    end
}
