// The outer walls of a site: whether the velocities on them are 0. The words of a site are read as a row of words, wherever they stand.
#![tactic(auto)]

mod row;

ghost use Rattle.std.specs.Prelude.{◌≡◌, ◌&&◌, ◌+◌, ◌*◌, ◌≤◌, pos, length, get_or};
ghost use Rattle.rules.specs.Grid.{all};
ghost use Rattle.rules.specs.Site.{is_zero, walls_still, read_state};
ghost use Rattle.laws.specs.Strides.{Strides};
ghost use Rattle.walls.specs.Lent.{Whole};

pub use row::Words;
use rules::Card;

// Whether a word is 0: the definition's word in the code.
pub fn is_zero(z: i32) -> bool
    ensures { result ≡ is_zero z }
{
    z == 0
}

// Whether n pairs of words, one pair in each stride from `first` and from `second` on, are 0. They are all read, whatever is found: so the loop has no branch.
fn pairs_still<W: Words + Copy>(
    row: W,
    first: usize,
    second: usize,
    stride: usize,
    n: usize,
) -> bool
    requires within { Strides (length (W.words row)) first second stride n }
    requires short { length (W.words row) ≤ 49408 }
    ensures { result ≡ all n (λ k. is_zero (get_or (W.words row) (first + k * stride) (pos 0)) && is_zero (get_or (W.words row) (second + k * stride) (pos 0))) }
{
    let mut ok = true;
    // No `fold`: its closure would need a clause of its own for the second word of a pair.
    for k in 0..n {
        let at = k * stride;
        ok = ok & (is_zero(row.word(first, at)) & is_zero(row.word(second, at)));
    }
    ok
}

// Whether the velocities on the four outer walls are 0: the west and east ends of each row, the south and north ends of each column.
#[tactic(auto, using(laws::specs::Facts::card_facts))]
pub fn walls_still<W: Words + Copy>(card: Card, state: W) -> bool
    requires { Whole card (W.words state) }
    ensures { result ≡ walls_still card (read_state card (W.words state)) }
{
    let columns = card.columns as usize;
    let rows = card.rows as usize;
    let cells = rows * columns;
    let north = cells + rows * (columns + 1);
    let sides = pairs_still(state, cells, cells + columns, columns + 1, rows);
    let ends = pairs_still(state, north, north + cells, 1, columns);
    sides & ends
}
