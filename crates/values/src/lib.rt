// The values of a site: every ground level, height and velocity in its range, and the walls still.
#![tactic(auto)]

ghost use Rattle.std.specs.Prelude.{◌≡◌, ◌+◌, ◌≤◌, pos, length, get_or};
ghost use Rattle.rules.specs.Grid.{all};
ghost use Rattle.rules.specs.Site.{height_fits, values_fit, read_ground, read_state};
ghost use Rattle.laws.specs.Between.{between};
ghost use Rattle.laws.specs.Facts.{Sized};

use rules::Card;
use walls::Words;

// Whether a word lies between two ends.
// The definition's word, with std's method inside; one for each type.
pub fn is_between(low: i32, high: i32, z: i32) -> bool
    ensures { result ≡ between low high z }
{
    (low..=high).contains(&z)
}

// Whether a height lies in its range.
pub fn height_fits(h: i32) -> bool
    ensures { result ≡ height_fits h }
{
    is_between(0, 50000000, h)
}

// Whether n words from `start` on lie in one range. It reads them all, whatever it finds: so the loop has no branch.
pub fn all_between<W: Words + Copy>(row: W, start: usize, n: usize, low: i32, high: i32) -> bool
    requires { start + n ≤ length (W.words row) }
    ensures { result ≡ all n (λ k. between low high (get_or (W.words row) (start + k) (pos 0))) }
{
    (0..n).fold(true, |ok, k| ok & is_between(low, high, row.word(start, k)))
}

// Whether every ground level, height and velocity lies in its range, and the walls are still.
pub fn values_fit<W: Words + Copy>(card: Card, land: W, state: W) -> bool
    requires { Sized card (W.words land) (W.words state) }
    ensures { result ≡ values_fit card (read_ground card (W.words land)) (read_state card (W.words state)) }
{
    let n = card::cells(card);
    let faces = card::state_length(card) - n;
    let grounds = all_between(land, 0, n, -50000000, 50000000);
    let depths = all_between(state, 0, n, 0, 50000000);
    let speeds = all_between(state, n, faces, -20000000, 20000000);
    grounds & depths & speeds & walls::walls_still(card, state)
}
