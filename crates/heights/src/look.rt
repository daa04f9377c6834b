// The look at the step limit: every cell, dry ones too, left at the first that breaks it. Still cells keep it, and are passed over row by row.
ghost use Rattle.std.specs.Prelude.{◌≡◌};
ghost use Rattle.rules.specs.Site.{read_state};
ghost use Rattle.rules.specs.Step.{within_limit, limit_kept};
ghost use Rattle.heights.specs.Known.{SoundCell, MarkedState};

use layout::cells;
use rules::Card;

// Whether a cell keeps the step limit.
fn keeps_limit(card: Card, state: &[i32], i: usize, j: usize) -> bool
    requires { SoundCell card state.now i j }
    ensures { result ≡ within_limit card (read_state card state.now) i j }
{
    let cell = cells::cell_at(card, state, state, i, j);
    face::keeps_limit(
        cell.west, cell.east, cell.south, cell.north, card.dt, card.dx, card.dy,
    )
}

// Whether every cell does.
pub fn limit_kept(card: Card, state: &[i32], marks: &[bool]) -> bool
    requires { MarkedState card state.now marks.now }
    ensures { result ≡ limit_kept card (read_state card state.now) }
{
    let columns = card.columns as usize;
    let rows = card.rows as usize;
    let mut kept = true;
    // Left by a label, as document 01 names the form of this place; by row and column, the numbers that a cell's four faces take.
    'look: for j in 0..rows {
        if marks[j] {
            continue 'look;
        }
        for i in 0..columns {
            if !keeps_limit(card, state, i, j) {
                kept = false;
                break 'look;
            }
        }
    }
    kept
}
