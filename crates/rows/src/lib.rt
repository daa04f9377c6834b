// A site's rows of depth texts, a line for each.
#![tactic(auto)]

ghost use Rattle.std.specs.Prelude.{◌≡◌, cond, [], ◌++◌, ◌+◌, ◌*◌, ◌≤◌, ◌<◌, length, eqb};
ghost use Rattle.rules.specs.Play.{comma, line_feed, cell_text, row_texts, row_lines};
ghost use Rattle.rows.specs.Rows.{Rows, Row, Cell};

use print::Page;
use rules::Card;

// A comma and a space before each text but the first.
fn put_comma(i: usize, page: &mut Page)
    requires { length page.old + 2 ≤ 9298 }
    ensures text { page.new ≡ page.old ++ cond (eqb i 0) [] comma }
    ensures end { length page.new ≤ length page.old + 2 }
{
    if i != 0 {
        page.put(b", ");
    }
}

// A product of two numbers of at most 32.
fn times(a: usize, b: usize) -> usize
    requires { (a ≤ 32) × (b ≤ 32) }
    ensures { (result ≡ a * b) × (result ≤ 1024) }
{
    a * b
}

// Where the heights of row j begin: rows run south to north.
fn row_start(card: Card, j: usize) -> usize
    requires { (j < card.rows) × ((card.rows ≤ 32) × (card.columns ≤ 32)) }
    ensures { (result ≡ j * card.columns) × (result ≤ 1024) }
{
    let columns = card.columns as usize;
    times(j, columns)
}

// The depth text of a cell, joined to those before it.
fn put_cell(card: Card, state: &[i32], i: usize, j: usize, page: &mut Page)
    requires { Cell card state.now i j (length page.old + 9) 9298 }
    ensures text { page.new ≡ page.old ++ cell_text card state.now i j }
    ensures end { length page.new ≤ length page.old + 9 }
{
    let start = row_start(card, j);
    put_comma(i, page);
    page.put_depth(state[start + i]);
}

// The depth texts of row j.
fn put_texts(card: Card, state: &[i32], j: usize, page: &mut Page)
    requires { Row card state.now j (length page.old + 9 * card.columns) 9298 }
    ensures text { page.new ≡ page.old ++ row_texts card state.now j card.columns }
    ensures end { length page.new ≤ length page.old + 9 * card.columns }
{
    // By column, the number that a cell's place takes.
    for i in 0..card.columns as usize {
        put_cell(card, state, i, j, page);
    }
}

// The line of row j.
fn put_row(card: Card, state: &[i32], j: usize, page: &mut Page)
    requires { Row card state.now j (length page.old + 289) 9298 }
    ensures text { page.new ≡ page.old ++ (row_texts card state.now j card.columns ++ line_feed) }
    ensures end { length page.new ≤ length page.old + 289 }
{
    put_texts(card, state, j, page);
    page.put(b"\n");
}

// A line for each row, south first.
pub fn put_rows(card: Card, state: &[i32], page: &mut Page)
    requires { Rows card state.now (length page.old + 9248) 9298 }
    ensures { page.new ≡ page.old ++ row_lines card state.now card.rows }
{
    // By row, the number that a cell's place takes.
    for j in 0..card.rows as usize {
        put_row(card, state, j, page);
    }
}
