// One chamber: its cell, and whether it is listed.
#![tactic(auto)]

ghost use Rattle.std.specs.Prelude.{◌≡◌, ◌<◌, ◌≤◌, pos};
ghost use Rattle.rules.specs.Search.{cell_along, listed as search_listed};
ghost use Rattle.chamber.specs.OnSite.{OnSite, Wet, cell_place, DeepEnough};

use rules::{Card, Window};

// Its column, or its row: the last one has its far end too.
fn cell_along(side: u32, count: u32, x: u64) -> usize
    requires { (0 < side) × (0 < count) }
    ensures { result ≡ cell_along side count (pos x) }
{
    let cell = x / u64::from(side);
    cell.min(u64::from(count - 1)) as usize
}

// Where its cell's height stands in the state.
fn cell_place(card: Card, x: i64, y: i64) -> usize
    requires { OnSite card x y }
    ensures { result ≡ cell_place card x y }
{
    let row = cell_along(card.dy, card.rows, y as u64);
    let column = cell_along(card.dx, card.columns, x as u64);
    row * (card.columns as usize) + column
}

// A height and a depth are whole micrometres, not below 0, and compared without their signs (docs/DECISIONS.md, `DeepEnough`). Nothing is rounded before.
fn deep_enough(height: u32, depth: u32) -> bool
    requires { (height ≤ 50000000) × (depth ≤ 50000000) }
    ensures { DeepEnough height depth result }
{
    depth <= height
}

// Whether it is inside the window, and its cell's kept height at least the depth asked.
pub fn listed(card: Card, state: &[i32], window: Window, depth: i32, x: i64, y: i64) -> bool
    requires { Wet card state.now depth x y }
    ensures { result ≡ search_listed card state.now window depth x y }
{
    if window::inside(window, x, y) {
        let at = cell_place(card, x, y);
        // The casts are proved to lose nothing, which cast_unsigned would not ask.
        return deep_enough(state[at] as u32, depth as u32);
    }
    false
}
