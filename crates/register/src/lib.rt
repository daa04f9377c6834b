// The register, as two lists of numbers: what is asked of it, and the list of its places.
#![tactic(auto)]

ghost use Rattle.std.specs.Prelude.{◌≡◌, true, ◌*◌, ◌≤◌, ◌<◌, pos, length, get_or};
ghost use Rattle.rules.specs.Grid.{all};
ghost use Rattle.rules.specs.Site.{card_fits};
ghost use Rattle.rules.specs.Search.{asked_fits, listed_at, list_of};
ghost use Rattle.laws.specs.Between.{between};
ghost use Rattle.laws.specs.Listings.{Listed};
ghost use Rattle.register.specs.Checked.{Checked};

use chamber::listed;
use rules::{Card, Window};
use window::edges_finite;

// How far a site reaches along one axis.
fn reach(count: u32, side: u32) -> i64
    requires { (count ≤ 128) × (side ≤ 20000000) }
    ensures { result ≡ pos (count * side) }
{
    let far = u64::from(count) * u64::from(side);
    far as i64
}

// The definition's word, with std's method inside; one for each type.
fn is_along(far: i64, x: i64) -> bool
    ensures { result ≡ between (pos 0) far x }
{
    (0..=far).contains(&x)
}

fn all_along(far: i64, xs: &[i64]) -> bool
    ensures { result ≡ all (length xs.now) (λ k. between (pos 0) far (get_or xs.now k (pos 0))) }
{
    xs.iter().copied().fold(true, |ok, x| ok & is_along(far, x))
}

// Whether every chamber lies on the site, the depth is in its range and the window's edges are finite.
pub fn asked_fits(card: Card, xs: &[i64], ys: &[i64], window: Window, depth: i32) -> bool
    requires { card_fits card ≡ true }
    ensures { result ≡ asked_fits card xs.now ys.now window depth }
{
    let x = all_along(reach(card.columns, card.dx), xs);
    let y = all_along(reach(card.rows, card.dy), ys);
    x & y & values::height_fits(depth) & edges_finite(window)
}

fn listed_at(
    card: Card,
    state: &[i32],
    window: Window,
    depth: i32,
    xs: &[i64],
    ys: &[i64],
    k: usize,
) -> bool
    requires { Checked card state.now xs.now ys.now depth × (k < length xs.now) }
    ensures { result ≡ listed_at card state.now window depth xs.now ys.now k }
{
    listed(card, state, window, depth, xs[k], ys[k])
}

// Lays the places that are listed at the front of a draft, and says how many: the chambers are looked at once, before the room is known. Window, depth and the two
// lists stay parameters, as water_search_lists lends them: a struct of them would be built there and taken apart in each clause here.
pub fn list(
    card: Card,
    state: &[i32],
    window: Window,
    depth: i32,
    xs: &[i64],
    ys: &[i64],
    draft: &mut [u32],
) -> usize
    requires { Checked card state.now xs.now ys.now depth × (length xs.now ≤ length draft.old) }
    ensures { Listed (list_of card state.now window depth xs.now ys.now) draft.old result draft.new }
{
    let mut n: usize = 0;
    // By its place, which is what is answered.
    for k in 0..xs.len() {
        if listed_at(card, state, window, depth, xs, ys, k) {
            draft[n] = k as u32;
            n += 1;
        }
    }
    n
}
